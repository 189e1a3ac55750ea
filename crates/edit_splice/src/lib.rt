// A part of a text replaced in place, in a buffer whose first bytes are the text.
#![tactic(auto)]

ghost use Rattle.std.specs.Prelude.{◌≡◌, ◌+◌, ◌≤◌, length, take, drop, replicate};
ghost use Rattle.std.proofs.Math.Seq.{paste};
ghost use Rattle.lists.specs.Put.{put_at};
ghost use Rattle.edit_splice.specs.Locals.{Replaceable};
ghost use Rattle.edit_splice.specs.Splice.{pasted, cleared, fits_in, replaced};

// Stores go on in steps of so many bytes where lent memory begins at one, as it mostly does.
const STEP: usize = 16;

// `new` copied to `at` and on.
fn copy_in(buffer: &mut [u8], at: usize, new: &[u8])
    requires { at + length new.now ≤ length buffer.old }
    ensures { buffer.new ≡ paste buffer.old at new.now (length new.now) }
{
    // Stays: 4: with copy_from_slice the archive would want memmove.
    for i in 0..new.len() {
        buffer[at + i] = new[i];
    }
}

// `n` bytes moved to the left, the first one first.
fn move_left(buffer: &mut [u8], from: usize, to: usize, n: usize)
    requires { (to ≤ from) × (from + n ≤ length buffer.old) }
    ensures { buffer.new ≡ paste buffer.old to (drop from buffer.old) n }
{
    // Stays: 4: with copy_within the archive would want memmove.
    for i in 0..n {
        buffer[to + i] = buffer[from + i];
    }
}

// `n` bytes moved to the right, the last one first.
fn move_right(buffer: &mut [u8], from: usize, to: usize, n: usize)
    requires { (from ≤ to) × (to + n ≤ length buffer.old) }
    ensures { buffer.new ≡ paste buffer.old to (drop from buffer.old) n }
{
    // Stays: 4: with copy_within the archive would want memmove.
    for k in (0..n).rev() {
        buffer[to + k] = buffer[from + k];
    }
}

// How many of `n` bytes from `at` on come before the next step.
fn before_step(at: usize, n: usize) -> usize
    ensures { result ≤ n }
{
    n.min((STEP - at % STEP) % STEP)
}

// How many of `n` bytes up to `end` come behind the last step.
fn behind_step(end: usize, n: usize) -> usize
    ensures { result ≤ n }
{
    n.min(end % STEP)
}

// `n` bytes moved to the left: up to a step, then the rest in steps. Bytes that stand there already stay.
fn close_up(buffer: &mut [u8], from: usize, to: usize, n: usize)
    requires { (to ≤ from) × (from + n ≤ length buffer.old) }
    ensures { buffer.new ≡ paste buffer.old to (drop from buffer.old) n }
{
    if to == from {
        return;
    }
    let head = before_step(to, n);
    move_left(buffer, from, to, head);
    move_left(buffer, from + head, to + head, n - head);
}

// `n` bytes moved to the right: those behind the last step, then the rest in steps.
fn open_up(buffer: &mut [u8], from: usize, to: usize, n: usize)
    requires { (from ≤ to) × (to + n ≤ length buffer.old) }
    ensures { buffer.new ≡ paste buffer.old to (drop from buffer.old) n }
{
    let tail = behind_step(to + n, n);
    let rest = n - tail;
    move_right(buffer, from + rest, to + rest, tail);
    move_right(buffer, from, to, rest);
}

// The bytes from `start` to `end` of the first `used` replaced by `new`; bytes that this frees become 0.
fn swap_in(buffer: &mut [u8], used: usize, start: usize, end: usize, new: &[u8])
    requires { Replaceable buffer.old used start end (length new.now) }
    ensures { buffer.new ≡
        put_at buffer.old 0 (cleared (pasted (take used buffer.old) start end new.now) used) }
{
    let to = start + new.len();
    let n = used - end;
    if to <= end {
        close_up(buffer, end, to, n);
        buffer[to + n..used].fill(0);
        copy_in(buffer, start, new);
        return;
    }
    open_up(buffer, end, to, n);
    copy_in(buffer, start, new);
}

// Whether `m` bytes may stand for a part of the first `used` of so many bytes. No sum is made: it could wrap.
fn may_replace(bytes: usize, used: usize, start: usize, end: usize, m: usize) -> bool
    ensures { result ≡ fits_in bytes used start end m }
{
    if end < start {
        return false;
    }
    if used < end {
        return false;
    }
    if bytes < used {
        return false;
    }
    m <= bytes - (used - (end - start))
}

// The bytes from `start` to `end` of the first `used` replaced by `new`, where they lie there and it has room; else nothing.
pub fn replace(buffer: &mut [u8], used: usize, start: usize, end: usize, new: &[u8])
    ensures { buffer.new ≡ replaced buffer.old used start end new.now }
{
    if may_replace(buffer.len(), used, start, end, new.len()) {
        swap_in(buffer, used, start, end, new);
    }
}
