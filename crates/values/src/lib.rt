// Read values, and decimals in them and written.
#![tactic(auto)]

pub mod decimal; // decimal.rt: numbers in read values
pub mod read; // read.rt: the read value of raw bytes, one byte at a time
pub mod spell; // spell.rt: numbers written
