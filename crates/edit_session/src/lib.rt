#![tactic(auto)]

// Sessions of edits, undone and redone: laws, and no code.
