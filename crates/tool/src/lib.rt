// What the programs share: room for a text, its tables and its writing; refusals and spans as bytes; the part of the room that was used.
#![tactic(auto)]

ghost use Rattle.std.specs.Prelude.{◌≡◌, take, replicate};
ghost use Rattle.store_bytes.specs.LocalsWrote.{Wrote};
ghost use Rattle.tool.specs.LocalsSaid.{counted, refused, spanned};

// Rows enough for any text of 65,536 bytes: of trees, and of values, two numbers each.
pub fn pair_rows() -> [u32; 65536]
    ensures { result ≡ replicate 65536 0 }
{
    [0u32; 65536]
}

// Of nodes, six numbers each.
pub fn node_rows() -> [u32; 393216]
    ensures { result ≡ replicate 393216 0 }
{
    [0u32; 393216]
}

// Of properties, four numbers each.
pub fn property_rows() -> [u32; 131072]
    ensures { result ≡ replicate 131072 0 }
{
    [0u32; 131072]
}

// One byte more than the longest text that a program reads.
pub fn text_room() -> [u8; 65537]
    ensures { result ≡ replicate 65537 0 }
{
    [0u8; 65537]
}

// A writing.
pub fn out_room() -> [u8; 400000]
    ensures { result ≡ replicate 400000 0 }
{
    [0u8; 400000]
}

// The first bytes of a room, as many as it has.
pub fn first(bytes: &[u8], n: usize) -> &[u8]
    ensures { result.now ≡ take n bytes.now }
{
    &bytes[..bytes.len().min(n)]
}

// Words and a number, and the place after them.
pub fn put_count(out: &mut [u8], at: usize, words: &[u8], n: u64) -> usize
    ensures { Wrote (counted words.now «n») out.old at out.new result }
{
    let next = store_bytes::put_bytes(out, at, words);
    values::spell::put_decimal(out, next, n)
}

// `refused N at P`, and the place after it.
pub fn put_refused(out: &mut [u8], at: usize, number: u32, place: usize) -> usize
    ensures { Wrote (refused «number» place) out.old at out.new result }
{
    let next = put_count(out, at, b"refused ", number as u64);
    put_count(out, next, b" at ", place as u64)
}

// `FROM..TO`, and the place after it.
pub fn put_span(out: &mut [u8], at: usize, from: usize, to: usize) -> usize
    ensures { Wrote (spanned from to) out.old at out.new result }
{
    let next = values::spell::put_decimal(out, at, from as u64);
    put_count(out, next, b"..", to as u64)
}
