#![tactic(auto)]

// When a reading gives each number, in the scope's words (specs/), and that it gives it then and only then (proofs/Exactly). No code.
