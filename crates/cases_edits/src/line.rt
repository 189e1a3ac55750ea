// The input: its lines, and the numbers and bytes in them.
ghost use Rattle.std.specs.Prelude.{◌≤◌, length};

// A number in decimal, and where it ends.
#[derive(Clone, Copy)]
pub struct Decimal {
    pub value: usize,
    pub end: usize,
}

pub fn number_at(line: &[u8], from: usize) -> Decimal {
    let mut value: usize = 0;
    for i in from..line.len() {
        let b = line[i];
        if !b.is_ascii_digit() | (99999 < value) {
            return Decimal { value, end: i };
        }
        value = value * 10 + (b - b'0') as usize;
    }
    Decimal {
        value,
        end: from.max(line.len()),
    }
}

// The place of the first line feed from `at` on, or the end.
pub fn line_end(s: &[u8], at: usize) -> usize
    requires { at ≤ length s.now }
    ensures { (at ≤ result) × (result ≤ length s.now) }
{
    for i in at..s.len() {
        if s[i] == b'\n' {
            return i;
        }
    }
    s.len()
}

// The line copied from `from` on, as far as there is room.
pub fn load(line: &[u8], from: usize, text: &mut [u8]) -> usize
    ensures { result ≤ length text.new }
{
    let rest = &line[from.min(line.len())..];
    let n = rest.len().min(text.len());
    text[..n].copy_from_slice(&rest[..n]);
    n
}
