// The input: its lines and words, and the numbers and bytes in them.
ghost use Rattle.std.specs.Prelude.{◌≤◌, length};

// A number in decimal, and where it ends.
#[derive(Clone, Copy)]
pub struct BlockNumber {
    pub value: usize,
    pub end: usize,
}

// The number of at most three digits at the head of a line.
pub fn number_at(line: &[u8]) -> BlockNumber {
    let mut value: usize = 0;
    for (i, &b) in line.iter().enumerate() {
        if !b.is_ascii_digit() || 99 < value {
            return BlockNumber { value, end: i };
        }
        value = value * 10 + usize::from(b - b'0');
    }
    BlockNumber {
        value,
        end: line.len(),
    }
}

// The first place from `at` on with this byte, or the end.
fn first_at(s: &[u8], at: usize, b: u8) -> usize
    requires { at ≤ length s.now }
    ensures { (at ≤ result) × (result ≤ length s.now) }
{
    for i in at..s.len() {
        if s[i] == b {
            return i;
        }
    }
    s.len()
}

// The first line feed from `at` on, or the end.
pub fn line_end(s: &[u8], at: usize) -> usize
    requires { at ≤ length s.now }
    ensures { (at ≤ result) × (result ≤ length s.now) }
{
    first_at(s, at, 10)
}

// The first space from `at` on, or the end.
pub fn word_end(s: &[u8], at: usize) -> usize
    requires { at ≤ length s.now }
    ensures { (at ≤ result) × (result ≤ length s.now) }
{
    first_at(s, at, 32)
}

// The number that a hex digit stands for; 16 for any other byte.
fn digit_of(b: u8) -> u8
    ensures { result ≤ 16 }
{
    match b {
        b'0'..=b'9' => b - b'0',
        b'a'..=b'f' => b - b'a' + 10,
        _ => 16,
    }
}

// The byte that the two hex digits at a place spell; 256 where there are none.
fn byte_at(line: &[u8], at: usize) -> u32
    ensures { result ≤ 256 }
{
    if line.len() < 2 {
        return 256;
    }
    if line.len() - 2 < at {
        return 256;
    }
    let high = digit_of(line[at]);
    let low = digit_of(line[at + 1]);
    if high == 16 {
        return 256;
    }
    if low == 16 {
        return 256;
    }
    (high * 16 + low) as u32
}

// The bytes that a word of hex digits spells, as far as it does and there is room.
pub fn decode(word: &[u8], bytes: &mut [u8]) -> usize
    ensures { result ≤ length bytes.new }
{
    for n in 0..bytes.len() {
        let b = byte_at(word, n * 2);
        if b == 256 {
            return n;
        }
        bytes[n] = b as u8;
    }
    bytes.len()
}

// As many bytes as there is room for, all of them the one that the digits behind the first byte of a word spell.
pub fn fill(word: &[u8], bytes: &mut [u8]) -> usize
    ensures { result ≤ length bytes.new }
{
    let b = byte_at(word, 1);
    if b == 256 {
        return 0;
    }
    bytes.fill(b as u8);
    bytes.len()
}
