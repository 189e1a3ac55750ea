// The bytes of a text rewritten as corrected: first the corrections that do not lengthen, then those that do, each in the feed's order.
// So no text on the way is longer than both the old and the final one.
ghost use Rattle.std.specs.Prelude.{◌≡◌, true, ◌+◌, ◌-◌, ◌<◌, ◌≤◌, ◌^◌, length};
ghost use Rattle.tables.specs.Flat.{over};
ghost use Rattle.tables.specs.Memory.{memory};
ghost use Rattle.fit.specs.Fit.{Fit};
ghost use Rattle.edit_splice.specs.Splice.{cleared};
ghost use Rattle.feed_laws.specs.Corrected.{corrected_text};
ghost use Rattle.feed_apply.specs.LocalsText.{shorter_put, longer_put};

use crate::{along, rows};
use tables::Counts;

// A correction put where it does not lengthen; how long the text then is.
fn put_shorter(text: &mut [u8], used: usize, start: usize, old: usize, new: &[u8]) -> usize
    requires { start + old ≤ used }
    ensures { (text.new ≡ shorter_put text.old used start old new.now) × (result ≡ used - (old - length new.now)) }
{
    if old < new.len() {
        return used;
    }
    edit_splice::replace(text, used, start, start + old, new);
    used - (old - new.len())
}

// A correction put where it lengthens.
fn put_longer(text: &mut [u8], used: usize, start: usize, old: usize, new: &[u8]) -> usize
    requires { (old < length new.now → start + old ≤ used) × (used + (length new.now - old) < 2 ^ 64) }
    ensures { (text.new ≡ longer_put text.old used start old new.now) × (result ≡ used + (length new.now - old)) }
{
    if new.len() <= old {
        return used;
    }
    edit_splice::replace(text, used, start, start + old, new);
    used + (new.len() - old)
}

// The text as corrected, where it has room.
pub fn rewrite(
    text: &mut [u8],
    used: usize,
    counts: Counts,
    trees: &[u32],
    nodes: &[u32],
    properties: &[u32],
    values: &[u32],
    feed: &[u8],
)
    requires { (Fit (memory text.old used counts trees.now nodes.now properties.now values.now) ≡ true)
        × (length (corrected_text (memory text.old used counts trees.now nodes.now properties.now values.now) feed.now) ≤ length text.old) }
    ensures { text.new ≡ over (cleared (corrected_text
        (memory text.old used counts trees.now nodes.now properties.now values.now)
        feed.now) used) text.old }
{
    let n = counts.values;
    let mut length = used;
    let mut s = along::begin(feed, n);
    // A while, twice: the feed says which value comes next.
    while s.due < n {
        let old = rows::size_of(values, s.due);
        let start = rows::start_of(values, s.due) - s.shrunk;
        let from = s.from;
        let to = s.to;
        length = put_shorter(text, length, start, old, &feed[from..to]);
        s = along::pass(feed, n, s, old);
    }
    let mut t = along::begin(feed, n);
    while t.due < n {
        let old = rows::size_of(values, t.due);
        let start = rows::start_of(values, t.due) - t.shrunk + t.grown;
        let from = t.from;
        let to = t.to;
        length = put_longer(text, length, start, old, &feed[from..to]);
        t = along::pass(feed, n, t, old);
    }
}
