#![tactic(auto)]

// What an explanation says of its text: laws, and no code.
