// One character of UTF-8.
#![tactic(auto)]

ghost use Rattle.std.specs.Prelude.{◌≡◌, ◌&&◌, [], ◌∷◌, ◌*◌, ◌+◌, ◌-◌, ◌<◌, ◌≤◌, length, drop, get_or};
ghost use Rattle.text_chars.specs.White.{within, white};
ghost use Rattle.text_chars.specs.Table.{listed, scalar};
ghost use Rattle.text_chars.specs.LocalsDecode.{decoded};

// Unicode White_Space. Most characters beyond Latin are beyond U+3000.
pub fn is_white(c: u32) -> bool
    ensures { result ≡ white c }
{
    if 0x3000 < c {
        return false;
    }
    ((0x9 <= c) & (c <= 0xD))
        | (c == 0x20)
        | (c == 0x85)
        | (c == 0xA0)
        | (c == 0x1680)
        | ((0x2000 <= c) & (c <= 0x200A))
        | ((0x2028 <= c) & (c <= 0x2029))
        | (c == 0x202F)
        | (c == 0x205F)
        | (c == 0x3000)
}

// The byte at `i`; past the end 0, which continues no character.
fn byte_at(s: &[u8], i: usize) -> u8
    ensures { result ≡ get_or s.now i 0 }
{
    s.get(i).copied().unwrap_or(0)
}

// `b` from `a` to `z`, and `c` from `low` to `high`.
fn leads(b: u8, a: u8, z: u8, c: u8, low: u8, high: u8) -> bool
    ensures { result ≡ within a z b && within low high c }
{
    ((a <= b) & (b <= z)) & ((low <= c) & (c <= high))
}

// A byte that may come after the second.
fn continues(b: u8) -> bool
    ensures { result ≡ within 0x80 0xbf b }
{
    (0x80 <= b) & (b <= 0xBF)
}

// Table 3-7: its row of two bytes. A function for each width: their rows differ in number and in the second byte.
fn two(b: u8, c: u8) -> bool
    ensures { result ≡ listed 2 (b ∷ c ∷ []) }
{
    leads(b, 0xC2, 0xDF, c, 0x80, 0xBF)
}

// Table 3-7: its rows of three bytes.
fn three(b: u8, c: u8, d: u8) -> bool
    ensures { result ≡ listed 3 (b ∷ c ∷ d ∷ []) }
{
    (leads(b, 0xE0, 0xE0, c, 0xA0, 0xBF)
        | leads(b, 0xE1, 0xEC, c, 0x80, 0xBF)
        | leads(b, 0xED, 0xED, c, 0x80, 0x9F)
        | leads(b, 0xEE, 0xEF, c, 0x80, 0xBF))
        & continues(d)
}

// Table 3-7: its rows of four bytes.
fn four(b: u8, c: u8, d: u8, e: u8) -> bool
    ensures { result ≡ listed 4 (b ∷ c ∷ d ∷ e ∷ []) }
{
    (leads(b, 0xF0, 0xF0, c, 0x90, 0xBF)
        | leads(b, 0xF1, 0xF3, c, 0x80, 0xBF)
        | leads(b, 0xF4, 0xF4, c, 0x80, 0x8F))
        & (continues(d) & continues(e))
}

// What a byte has above `base`.
fn above(b: u8, base: u8) -> u32
    ensures { result ≡ b - base }
{
    u32::from(b.saturating_sub(base))
}

// The bits so far, and those of one byte more.
fn joined(code: u32, b: u8) -> u32
    requires { code < 0x1000000 }
    ensures { result ≡ code * 64 + (b - 0x80) }
{
    code * 64 + above(b, 0x80)
}

// The character that two bytes code. A function for each width: a loop over a slice would have to bound the bits so far.
fn scalar2(b: u8, c: u8) -> u32
    ensures { result ≡ scalar (b ∷ c ∷ []) }
{
    joined(above(b, 0xC0), c)
}

// The character that three bytes code.
fn scalar3(b: u8, c: u8, d: u8) -> u32
    ensures { result ≡ scalar (b ∷ c ∷ d ∷ []) }
{
    joined(joined(above(b, 0xE0), c), d)
}

// The character that four bytes code.
fn scalar4(b: u8, c: u8, d: u8, e: u8) -> u32
    ensures { result ≡ scalar (b ∷ c ∷ d ∷ e ∷ []) }
{
    joined(joined(joined(above(b, 0xF0), c), d), e)
}

// The character at `i`, beyond ASCII.
fn wide_at(s: &[u8], i: usize) -> Option<(usize, bool)>
    requires { (i < length s.now) × (128 ≤ get_or s.now i 0) }
    ensures { result ≡ decoded (drop i s.now) }
{
    let b = s[i];
    let c = byte_at(s, i + 1);
    if two(b, c) {
        return Some((2, is_white(scalar2(b, c))));
    }
    let d = byte_at(s, i + 2);
    if three(b, c, d) {
        return Some((3, is_white(scalar3(b, c, d))));
    }
    let e = byte_at(s, i + 3);
    if four(b, c, d, e) {
        return Some((4, is_white(scalar4(b, c, d, e))));
    }
    None
}

// The character at `i`; none past the end.
pub fn char_at(s: &[u8], i: usize) -> Option<(usize, bool)>
    ensures { result ≡ decoded (drop i s.now) }
{
    if s.len() <= i {
        return None;
    }
    let b = s[i];
    if b < 128 {
        return Some((1, is_white(b as u32)));
    }
    wide_at(s, i)
}
