// Numbers in groups of seven bits, lowest first: read at a place, and put.
#![tactic(auto)]

ghost use Rattle.std.specs.Prelude.{◌≡◌, ◌≤◌, length};
ghost use Rattle.store_bytes.specs.LocalsWrote.{Wrote};
ghost use Rattle.feed_numerals.specs.Numeral.{numeral_at, spelled, numeral_limit, Below};

// The number that stands at a place: below 2^28, if there is one.
pub fn read_numeral(s: &[u8], at: usize) -> Option<(usize, usize)>
    ensures { (result ≡ numeral_at s.now at) × Below numeral_limit result }
{
    let mut value: usize = 0;
    let mut weight: usize = 1;
    let mut place = at;
    for size in 0..4 {
        if s.len() <= place {
            return None;
        }
        let b = usize::from(s[place]);
        if b < 0x80 {
            if (size != 0) & (b == 0) {
                return None;
            }
            return Some((value + weight * b, size + 1));
        }
        value += weight * (b - 0x80);
        weight *= 0x80;
        place += 1;
    }
    None
}

// How many bytes a number has.
pub fn numeral_size(n: usize) -> usize
    ensures { result ≡ length (spelled n) }
{
    match n {
        0..=0x7F => 1,
        0x80..=0x3FFF => 2,
        0x4000..=0x1F_FFFF => 3,
        _ => 4,
    }
}

// The bytes of a number, and the place after them.
pub fn put_numeral(out: &mut [u8], at: usize, n: usize) -> usize
    ensures { Wrote (spelled n) out.old at out.new result }
{
    let mut rest = n;
    let mut next = at;
    for _ in 0..4usize {
        if rest < 0x80 {
            return store_bytes::put_byte(out, next, rest as u8);
        }
        next = store_bytes::put_byte(out, next, (0x80 + rest % 0x80) as u8);
        rest /= 0x80;
    }
    next
}
