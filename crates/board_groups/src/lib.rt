#![tactic(auto)]

// Groups of stones, their liberties and what is taken off, as relations on points (specs/), and their laws (proofs/). No code.
