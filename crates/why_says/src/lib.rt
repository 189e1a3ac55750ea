#![tactic(auto)]

// What each fact says of its text, with its number and its place: laws, and no code.
