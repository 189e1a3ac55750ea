// The read value of raw bytes, one byte at a time and with no copy.
ghost use Rattle.std.specs.Prelude.{◌≡◌};
ghost use Rattle.values.specs.Read.{next_read};

// The next byte of the read value.
pub fn next_read(s: &[u8], at: usize) -> Option<(u8, usize)>
    ensures { result ≡ next_read s.now at }
{
    if s.len() <= at {
        return None;
    }
    let b = s[at];
    if b != b'\\' {
        return Some((b, at + 1));
    }
    if s.len() <= at + 1 {
        return None;
    }
    Some((s[at + 1], at + 2))
}
