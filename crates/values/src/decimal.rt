// Signed decimals in read values, as Rust's `parse::<i64>` and `parse::<i32>` take them.
ghost use Rattle.std.specs.Prelude.{◌≡◌, false, ◌-◌, ◌^◌, min, drop};
ghost use Rattle.values.specs.Read.{read_value};
ghost use Rattle.values.specs.Decimal.{digit_of, digits_from, decimal_of};

// A number by its sign and its size, or none.
#[derive(Clone, Copy)]
pub enum Number {
    Bad,
    Plus(u64),
    Minus(u64),
}

// The digit that a byte is, or 10.
fn digit_of(b: u8) -> u64
    ensures { result ≡ digit_of b }
{
    if b < b'0' {
        return 10;
    }
    if b'9' < b {
        return 10;
    }
    (b - b'0') as u64
}

// The number that the digits from a place on spell, at most `most`.
fn digits_at(s: &[u8], from: usize, minus: bool, most: u64) -> Number
    ensures { result ≡ digits_from false minus most 0 (read_value (drop from s.now)) }
{
    let mut at = from;
    let mut acc: u64 = 0;
    let mut any = false;
    // A loop: `at` moves by what the next read byte takes.
    loop {
        match crate::read::next_read(s, at) {
            None => break,
            Some((b, next)) => {
                let d = digit_of(b);
                if 9 < d {
                    return Number::Bad;
                }
                if most / 10 < acc {
                    return Number::Bad;
                }
                if most - acc * 10 < d {
                    return Number::Bad;
                }
                acc = acc * 10 + d;
                any = true;
                at = next;
            }
        }
    }
    if !any {
        return Number::Bad;
    }
    if minus {
        Number::Minus(acc)
    } else {
        Number::Plus(acc)
    }
}

// The number that a value reads as, at most `most`.
pub fn decimal_within(s: &[u8], most: u64) -> Number
    ensures { result ≡ decimal_of (min most (2 ^ 64 - 2)) (read_value s.now) }
{
    // The largest bound whose minus still fits a u64.
    let bound = most.min(0xffff_ffff_ffff_fffe);
    match crate::read::next_read(s, 0) {
        None => Number::Bad,
        Some((b, next)) => {
            if b == b'+' {
                return digits_at(s, next, false, bound);
            }
            if b == b'-' {
                return digits_at(s, next, true, bound + 1);
            }
            digits_at(s, 0, false, bound)
        }
    }
}

// A number within 64 bits with sign.
pub fn read_i64(s: &[u8]) -> Number
    ensures { result ≡ decimal_of (2 ^ 63 - 1) (read_value s.now) }
{
    decimal_within(s, 0x7fff_ffff_ffff_ffff)
}

// A number within 32 bits with sign.
pub fn read_i32(s: &[u8]) -> Number
    ensures { result ≡ decimal_of (2 ^ 31 - 1) (read_value s.now) }
{
    decimal_within(s, 0x7fff_ffff)
}
