#![tactic(auto)]

// The mended record: what salvage keeps of a lenient reading (specs/Mend). No code.
