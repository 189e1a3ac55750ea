#![tactic(auto)]

// Tags of records with one writing, and of records that differ only in places (proofs/Same). No code.
