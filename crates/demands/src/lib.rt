#![tactic(auto)]

// The three demands, each in one file that only cites (proofs/). No code.
