#![tactic(auto)]

// Laws of the tokens for the layers above; proofs/Laws states them in one file. No code.
