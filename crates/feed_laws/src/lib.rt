#![tactic(auto)]

// What a feed makes of a record, as the lookup hands it out (specs/Corrected, proofs/Same). No code.
