// Numbers put into lent tables where there is room.
#![tactic(auto)]

ghost use Rattle.lists.specs.Put.{PutWhole};

// A row put at a place, where there is room for all of it.
pub fn put<const N: usize>(t: &mut [u32], at: usize, row: [u32; N])
    ensures { PutWhole t.old at row.entry t.new }
{
    if at <= t.len() {
        if N <= t.len() - at {
            t[at..at + N].copy_from_slice(&row);
        }
    }
}
