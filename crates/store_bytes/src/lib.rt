// Bytes put into lent memory as far as it has room. A walk over an empty part puts nothing and measures.
#![tactic(auto)]

ghost use Rattle.std.specs.Prelude.{◌≡◌, [], ◌∷◌, ◌+◌, ◌≤◌, length};
ghost use Rattle.std.proofs.lemmas.List.Edits.{sets};
ghost use Rattle.store_bytes.specs.LocalsWrote.{Wrote};

// Bytes copied to a place that has room for them.
fn copy(out: &mut [u8], at: usize, s: &[u8])
    requires { at + length s.now ≤ length out.old }
    ensures { out.new ≡ sets out.old at s.now }
{
    // Stays: 4: most are one to four bytes, for which copy_from_slice calls memmove.
    for i in 0..s.len() {
        out[at + i] = s[i];
    }
}

// One byte, and the place after it.
pub fn put_byte(out: &mut [u8], at: usize, b: u8) -> usize
    ensures { Wrote (b ∷ []) out.old at out.new result }
{
    if at < out.len() {
        out[at] = b;
        return at + 1;
    }
    at.saturating_add(1)
}

// Bytes as they are, and the place after them.
pub fn put_bytes(out: &mut [u8], at: usize, s: &[u8]) -> usize
    ensures { Wrote s.now out.old at out.new result }
{
    let next = at.saturating_add(s.len());
    if out.len() <= at {
        return next;
    }
    let n = s.len().min(out.len() - at);
    copy(out, at, &s[..n]);
    next
}
