#![tactic(auto)]

// A feed undone: as its edits, and by its inverse feed; laws, and no code.
