#![tactic(auto)]

// A record that strict reading gives stays one under any run of edits (specs/Run, proofs/DemandThree). No code.
