#![tactic(auto)]

// What holds of the mended record of a lenient reading (proofs/). No code.
