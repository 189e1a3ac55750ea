// Go values of properties.
#![tactic(auto)]

pub mod set; // set.rt: the points of many values
pub mod value; // value.rt: the Go value of a property
