// What is kept of the edits of a text, to undo them and to do them again: a slot of 64 bytes for each, and its head, the number of the value and how many bytes there are.
ghost use Rattle.std.specs.Prelude.{◌≤◌, length};

use crate::line::load;

pub const SLOT: usize = 64;

// Keeps bytes of value k in a slot, where there is such a slot.
pub fn keep(bytes: &[u8], k: usize, slot: usize, log: &mut [u8], heads: &mut [usize]) {
    if log.len() / SLOT <= slot {
        return;
    }
    if heads.len() / 2 <= slot {
        return;
    }
    let from = slot * SLOT;
    let to = from + SLOT;
    let n = load(bytes, 0, &mut log[from..to]);
    heads[slot * 2] = k;
    heads[slot * 2 + 1] = n;
}

// The number of a slot's value.
pub fn value_of(heads: &[usize], slot: usize) -> usize {
    if heads.len() / 2 <= slot {
        return 0;
    }
    heads[slot * 2]
}

// The bytes of a slot, copied.
pub fn bytes_of(log: &[u8], heads: &[usize], slot: usize, out: &mut [u8]) -> usize
    ensures { result ≤ length out.new }
{
    if log.len() / SLOT <= slot {
        return 0;
    }
    if heads.len() / 2 <= slot {
        return 0;
    }
    let n = heads[slot * 2 + 1];
    if SLOT < n {
        return 0;
    }
    let from = slot * SLOT;
    let to = from + n;
    load(&log[from..to], 0, out)
}
