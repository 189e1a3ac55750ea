#![tactic(auto)]

// The decisions on the board, each by its smallest text, as a table that computes (specs/Table); each number exactly for its reason (specs/When, proofs/Exactly). No code.
