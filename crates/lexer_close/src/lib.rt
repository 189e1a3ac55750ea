// Where a value closes: at the first `]` that no backslash escapes.
#![tactic(auto)]

mod runs; // runs.rt: runs of bytes that the scan steps over

ghost use Rattle.std.specs.Prelude.{◌≡◌};
ghost use Rattle.lexer_close.specs.Close.{close_at};

pub use runs::is_pair;

// The first unescaped `]` at or after `from`. Runs of plain bytes are stepped over: a short one at the start, then blocks behind an escape and each 16 bytes.
pub fn value_end(s: &[u8], from: usize) -> Option<usize>
    ensures { result ≡ close_at s.now from }
{
    if s.len() <= from {
        return None;
    }
    let mut i = runs::past_short(s, from);
    let mut escaped = false;
    let mut again = i;
    // A loop: i moves by a byte, or past a run.
    loop {
        if s.len() <= i {
            break None;
        }
        if escaped {
            escaped = false;
            i = runs::past_plain(s, i + 1);
            again = i + 16;
            continue;
        }
        let b = s[i];
        if b == b']' {
            break Some(i);
        }
        escaped = b == b'\\';
        i += 1;
        if (again <= i) & !escaped {
            i = runs::past_plain(s, i);
            again = i + 16;
        }
    }
}

// As `value_end`. Most values are two bytes.
pub fn quick_end(s: &[u8], from: usize) -> Option<usize>
    ensures { result ≡ close_at s.now from }
{
    if runs::is_pair(s, from) {
        return Some(from + 2);
    }
    value_end(s, from)
}
