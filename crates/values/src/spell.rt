// Numbers written as plain decimal.
ghost use Rattle.std.specs.Prelude.{◌≡◌, ◌≤◌, length, drop};
ghost use Rattle.values.specs.Decimal.{decimal};
ghost use Rattle.store_bytes.specs.LocalsWrote.{Wrote};

// Digits at the end of an array, from `from` on.
#[derive(Clone, Copy)]
struct Digits {
    bytes: [u8; 20],
    from: usize,
}

// The decimal digits of a number, at the end of 20 bytes.
fn digits_of(n: u64) -> Digits
    ensures { (drop result.from result.bytes ≡ decimal n) × (result.from ≤ 20) × (length result.bytes ≡ 20) }
{
    let mut bytes = [0u8; 20];
    let mut i: usize = 20;
    let mut rest = n;
    // A while: i is the answer too, where the digits begin.
    while 0 < i {
        i -= 1;
        bytes[i] = b'0' + (rest % 10) as u8;
        if rest < 10 {
            break;
        }
        rest = rest / 10;
    }
    Digits {
        bytes: bytes,
        from: i,
    }
}

// The digits of n, and the place after them.
pub fn put_decimal(out: &mut [u8], at: usize, n: u64) -> usize
    ensures { Wrote (decimal n) out.old at out.new result }
{
    let d = digits_of(n);
    let from = d.from;
    let b = d.bytes;
    store_bytes::put_bytes(out, at, &b[from..])
}
