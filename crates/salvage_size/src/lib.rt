#![tactic(auto)]

// How long and how deep the writing of a mended record is, from its nodes and from the slices of the text alone: laws, and no code.
