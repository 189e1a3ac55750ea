#![tactic(auto)]

// A text and its rows by the bytes of its values: laws, and no code.
