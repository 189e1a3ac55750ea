#![tactic(auto)]

// Blocks of a text, however it was cut, are one reading of the joined text: laws, and no code.
