#![tactic(auto)]

// Strict reading of a writing gives the record again (specs/Back, proofs/Theorem). No code.
