// Definitions (specs/) and laws (proofs/) about lists that every crate above cites, and the one step that all of them take.
#![tactic(auto)]

ghost use Rattle.std.specs.Prelude.{◌≡◌};

// A cell as an index.
pub fn wide(cell: u32) -> usize
    ensures { result ≡ cell }
{
    cell as usize
}
