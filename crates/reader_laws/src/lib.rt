#![tactic(auto)]

// Where the reader and the fitting rule meet: the tables of an accepted reading fit its text (proofs/Fitting). No code.
