// Feeds of corrections, exported: looked into over a record, checked, applied, made.
ghost use Rattle.std.specs.Prelude.{◌≡◌, ◌&&◌, ltb, length};
ghost use Rattle.tables.specs.Memory.{memory};
ghost use Rattle.feed_numerals.specs.Numeral.{spelled, numeral_limit};
ghost use Rattle.feed.specs.Feed.{listing};
ghost use Rattle.feed.specs.Find.{found_in};
ghost use Rattle.feed.specs.Made.{correction_bytes};
ghost use Rattle.feed_check.specs.Check.{feed_checked};
ghost use Rattle.feed_value.specs.Look.{looked_up};
ghost use Rattle.c_feed.specs.Parts.{part_in_c, found_in_c, check_in_c, PutInC, CorrectInC};

use c_answers::{SgfEdit, SgfWriting};
use c_feed::{SgfCheck, SgfPart};
use tables::Counts;

// The bytes of value k as corrected: a part of the feed or of the record, or the number of a refusal: 19, 24, 16, 17, 2, 18, then 16 for k itself.
#[unsafe(no_mangle)]
pub extern "C" fn sgf_corrected(
    text: &[u8],
    used: usize,
    counts: Counts,
    trees: &[u32],
    nodes: &[u32],
    properties: &[u32],
    values: &[u32],
    feed: &[u8],
    k: usize,
) -> SgfPart
    ensures { result ≡ part_in_c (looked_up
        (memory text.now used counts trees.now nodes.now properties.now values.now)
        feed.now k) }
{
    sgf::feeds::sgf_corrected(
        text, used, counts, trees, nodes, properties, values, feed, k,
    )
}

// Whether a feed may be applied to a record, but for the length of the text: 19, 24, then for each correction 16, 17, 2, 18.
#[unsafe(no_mangle)]
pub extern "C" fn sgf_feed_check(
    text: &[u8],
    used: usize,
    counts: Counts,
    trees: &[u32],
    nodes: &[u32],
    properties: &[u32],
    values: &[u32],
    feed: &[u8],
) -> SgfCheck
    ensures { result ≡ check_in_c (feed_checked
        (memory text.now used counts trees.now nodes.now properties.now values.now)
        feed.now) }
{
    sgf::feeds::sgf_feed_check(text, used, counts, trees, nodes, properties, values, feed)
}

// Where the new bytes of value k stand in a feed, without any check: among the corrections before the first fault.
#[unsafe(no_mangle)]
pub extern "C" fn sgf_feed_find(feed: &[u8], k: usize) -> SgfPart
    ensures { result ≡ found_in_c (found_in (listing feed.now).entries k) }
{
    sgf::feeds::sgf_feed_find(feed, k)
}

// The count with which a feed begins, put into the output, or nothing changed: 24, 14.
#[unsafe(no_mangle)]
pub extern "C" fn sgf_feed_begin(count: usize, out: &mut [u8]) -> SgfWriting
    ensures { PutInC (ltb count numeral_limit) (spelled count) out.old out.new result }
{
    sgf::feeds::sgf_feed_begin(count, out)
}

// One correction, put into the output, or nothing changed: 24, 14.
#[unsafe(no_mangle)]
pub extern "C" fn sgf_feed_add(value: usize, bytes: &[u8], out: &mut [u8]) -> SgfWriting
    ensures { PutInC (ltb value numeral_limit && ltb (length bytes.now) numeral_limit)
        (correction_bytes value bytes.now) out.old out.new result }
{
    sgf::feeds::sgf_feed_add(value, bytes, out)
}

// Puts the corrections of a feed into the record in place, all of them, or changes nothing: 19, 24, for each correction 16, 17, 2, 18, then 1, 14.
#[unsafe(no_mangle)]
pub extern "C" fn sgf_correct(
    text: &mut [u8],
    used: usize,
    counts: Counts,
    trees: &[u32],
    nodes: &[u32],
    properties: &mut [u32],
    values: &mut [u32],
    feed: &[u8],
) -> SgfEdit
    ensures { CorrectInC
        (memory text.old used counts trees.now nodes.now properties.old values.old)
        (memory text.new used counts trees.now nodes.now properties.new values.new)
        feed.now result }
{
    sgf::feeds::sgf_correct(text, used, counts, trees, nodes, properties, values, feed)
}
