// A tag of bytes: FNV-1a, 64 bits. The product modulo 2 to the 64, one byte, some bytes more, all bytes, and the tag as 16 hex digits.
#![tactic(auto)]

ghost use Rattle.std.specs.Prelude.{◌≡◌, ◌*◌, ◌%◌, ◌^◌};
ghost use Rattle.store_bytes.specs.LocalsWrote.{Wrote};
ghost use Rattle.season_tag.specs.Tag.{tag_step, tag_from, tag_of};
ghost use Rattle.season_tag.specs.Hex.{hex_digit, hex_of};

// The product modulo 2 to the 64.
pub fn product(a: u64, b: u64) -> u64
    ensures { result ≡ (a * b) % 2 ^ 64 }
{
    a.wrapping_mul(b)
}

// One byte more: exclusive-or, then the product.
fn step(h: u64, b: u8) -> u64
    ensures { result ≡ tag_step h b }
{
    product(h ^ (b as u64), 1099511628211)
}

// A tag that goes on over more bytes.
pub fn tag_on(from: u64, s: &[u8]) -> u64
    ensures { result ≡ tag_from from s.now }
{
    let mut h = from;
    for b in s {
        h = step(h, *b);
    }
    h
}

// The tag of the bytes.
pub fn tag(s: &[u8]) -> u64
    ensures { result ≡ tag_of s.now }
{
    tag_on(14695981039346656037, s)
}

// The letter of a digit below 16; of any other number, that of its last digit.
fn letter(n: u64) -> u8
    ensures { result ≡ hex_digit (n % 16) }
{
    let d = n % 16;
    if d < 10 {
        return (48 + d) as u8;
    }
    (87 + d) as u8
}

// The 16 digits, highest first, and the place after them.
pub fn put_hex(out: &mut [u8], at: usize, n: u64) -> usize
    ensures { Wrote (hex_of n) out.old at out.new result }
{
    let mut next = at;
    for k in (0..16u32).rev() {
        next = store_bytes::put_byte(out, next, letter(n >> (4 * k)));
    }
    next
}
