// Runs of bytes that a scan for a closing bracket may step over, a block at a time.
ghost use Rattle.std.specs.Prelude.{◌≡◌, true, ℕ, ◌+◌, ◌≤◌, ◌<◌, length, get_or, Some};
ghost use Rattle.lexer_close.specs.Close.{close_at};
ghost use Rattle.lexer_close.specs.LocalsRun.{closes_nothing, pair_at, LeadsTo};

// Neither `]` nor a backslash.
fn is_plain(b: u8) -> bool
    ensures { result ≡ closes_nothing b }
{
    (b != b']') & (b != b'\\')
}

// Are all plain: no early way out, so that the compiler takes 16 at once.
fn all_plain(block: &[u8]) -> bool
    ensures { result ≡ true → (k : ℕ) → k < length block.now → closes_nothing (get_or block.now k 0) ≡ true }
{
    let mut all = true;
    for b in block {
        all = all & is_plain(*b);
    }
    all
}

// Past the first plain bytes, at most 16: most values are that short.
pub fn past_short(s: &[u8], from: usize) -> usize
    requires { from ≤ length s.now }
    ensures { LeadsTo s.now from result }
{
    let stop = s.len().min(from + 16);
    for i in from..stop {
        if !is_plain(s[i]) {
            return i;
        }
    }
    stop
}

// Do two plain bytes and a `]` stand there.
pub fn is_pair(s: &[u8], i: usize) -> bool
    ensures { (result ≡ pair_at s.now i) × (result ≡ true → close_at s.now i ≡ Some (i + 2)) }
{
    if s.len() <= i {
        return false;
    }
    if s.len() - i < 3 {
        return false;
    }
    (s[i + 2] == b']') & (is_plain(s[i]) & is_plain(s[i + 1]))
}

// Past plain blocks of N bytes up to `stop`. A while: i moves by a block, and the last bytes make none.
fn past_blocks<const N: usize>(s: &[u8], from: usize, stop: usize) -> usize
    requires { (0 < N) × (from ≤ stop) × (stop ≤ length s.now) }
    ensures { LeadsTo s.now from result × (result ≤ stop) }
{
    let mut i = from;
    while N <= stop - i {
        if !all_plain(&s[i..i + N]) {
            return i;
        }
        i += N;
    }
    i
}

// Past plain blocks of 16 bytes; after four of them, of 64. The first is asked apart: where escapes are many, most runs end in it.
pub fn past_plain(s: &[u8], from: usize) -> usize
    requires { from ≤ length s.now }
    ensures { LeadsTo s.now from result }
{
    if s.len() - from < 16 {
        return from;
    }
    if !all_plain(&s[from..from + 16]) {
        return from;
    }
    let stop = s.len().min(from + 64);
    let i = past_blocks::<16>(s, from + 16, stop);
    if i - from < 64 {
        return i;
    }
    past_blocks::<64>(s, i, s.len())
}
