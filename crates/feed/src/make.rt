// A feed's count, and one correction, put into lent bytes where numbers and room allow.
ghost use Rattle.std.specs.Prelude.{◌≡◌, ◌&&◌, ltb, length};
ghost use Rattle.feed_numerals.specs.Numeral.{spelled, numeral_limit};
ghost use Rattle.feed.specs.Made.{MadeIs, correction_bytes};

// What four groups hold, and one more.
const LIMIT: usize = 268435456;

// Why no bytes are put: a number needs five groups; or there is no room.
#[derive(Clone, Copy)]
pub enum MakeFault {
    TooLarge,
    NoRoom,
}

// The count with which a feed begins.
pub fn put_count(out: &mut [u8], count: usize) -> Result<usize, MakeFault>
    ensures { MadeIs (ltb count numeral_limit) (spelled count) out.old out.new result }
{
    if LIMIT <= count {
        return Err(MakeFault::TooLarge);
    }
    if out.len() < feed_numerals::numeral_size(count) {
        return Err(MakeFault::NoRoom);
    }
    Ok(feed_numerals::put_numeral(out, 0, count))
}

// One correction.
pub fn put_correction(out: &mut [u8], value: usize, bytes: &[u8]) -> Result<usize, MakeFault>
    ensures { MadeIs (ltb value numeral_limit && ltb (length bytes.now) numeral_limit)
        (correction_bytes value bytes.now) out.old out.new result }
{
    if LIMIT <= value {
        return Err(MakeFault::TooLarge);
    }
    if LIMIT <= bytes.len() {
        return Err(MakeFault::TooLarge);
    }
    let size = feed_numerals::numeral_size(value)
        + feed_numerals::numeral_size(bytes.len())
        + bytes.len();
    if out.len() < size {
        return Err(MakeFault::NoRoom);
    }
    let next = feed_numerals::put_numeral(out, 0, value);
    let from = feed_numerals::put_numeral(out, next, bytes.len());
    Ok(store_bytes::put_bytes(out, from, bytes))
}
