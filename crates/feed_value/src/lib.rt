// A value looked up over a record and a feed: a part of the feed where corrected, else of the record.
#![tactic(auto)]

ghost use Rattle.std.specs.Prelude.{◌≡◌, ◌/◌, ◌<◌, length};
ghost use Rattle.tables.specs.Columns.{value_stride, val_from_at, val_to_at};
ghost use Rattle.tables.specs.Memory.{memory};
ghost use Rattle.feed.specs.Feed.{listing};
ghost use Rattle.feed.specs.Find.{found_in};
ghost use Rattle.feed_value.specs.Look.{source_of, looked_up, corrected_value};

use feed_check::FeedRefusal;
use tables::{Counts, Refusal};

// Where a value's bytes stand, in the record or in the feed; or why it is refused, and the place.
#[derive(Clone, Copy)]
pub enum Looked {
    Record(usize, usize),
    Feed(usize, usize),
    Refused(FeedRefusal, usize),
}

// Where value k stands, of a record and a feed that passed.
fn source_of(values: &[u32], feed: &[u8], k: usize) -> Looked
    requires { k < length values.now / value_stride }
    ensures { result ≡ source_of (found_in (listing feed.now).entries k) (val_from_at values.now k) (val_to_at values.now k) }
{
    match feed::find(feed, k) {
        Some((from, to)) => Looked::Feed(from, to),
        None => {
            let start = lists::wide(values[k * tables::VALUE_STRIDE]);
            let end = lists::wide(values[k * tables::VALUE_STRIDE + tables::VALUE_END]);
            Looked::Record(start, end)
        }
    }
}

// Where the bytes of value k stand, or why the lookup is refused.
pub fn look_up(
    text: &[u8],
    used: usize,
    counts: Counts,
    trees: &[u32],
    nodes: &[u32],
    properties: &[u32],
    values: &[u32],
    feed: &[u8],
    k: usize,
) -> Looked
    ensures { result ≡ looked_up
        (memory text.now used counts trees.now nodes.now properties.now values.now)
        feed.now k }
{
    match feed_check::check_feed(text, used, counts, trees, nodes, properties, values, feed) {
        Err(refused) => Looked::Refused(refused.reason, refused.place),
        Ok(()) => {
            if counts.values <= k {
                return Looked::Refused(FeedRefusal::NoSuchNumber, 0);
            }
            source_of(values, feed, k)
        }
    }
}

// The bytes of value k: a part of the feed where corrected, else of the record; the empty part where the lookup is refused.
pub fn value<'a>(
    text: &'a [u8],
    used: usize,
    counts: Counts,
    trees: &[u32],
    nodes: &[u32],
    properties: &[u32],
    values: &[u32],
    feed: &'a [u8],
    k: usize,
) -> &'a [u8]
    ensures { result.now ≡ corrected_value
        (memory text.now used counts trees.now nodes.now properties.now values.now)
        feed.now k }
{
    match look_up(
        text, used, counts, trees, nodes, properties, values, feed, k,
    ) {
        Looked::Record(start, end) => &text[start..end],
        Looked::Feed(start, end) => &feed[start..end],
        Looked::Refused(_, _) => &text[..0],
    }
}
