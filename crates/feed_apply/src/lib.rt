// A feed applied to a record in place: all of its corrections, or none.
#![tactic(auto)]

mod along; // along.rt: the corrections one after another
mod rows; // rows.rt: the places in the rows moved
mod sweep; // sweep.rt: the bytes rewritten

ghost use Rattle.tables.specs.Memory.{memory};
ghost use Rattle.feed_apply.specs.Lent.{ApplyIs};

use feed_check::FeedRefusal;
use tables::{Counts, Refusal};

// The corrections of a feed put into the text, and the places of the rows moved; or nothing changed: 19, 24, for each correction 16, 17, 2, 18, then 1, 14.
pub fn apply(
    text: &mut [u8],
    used: usize,
    counts: Counts,
    trees: &[u32],
    nodes: &[u32],
    properties: &mut [u32],
    values: &mut [u32],
    feed: &[u8],
) -> Result<usize, Refusal<FeedRefusal>>
    ensures { ApplyIs
        (memory text.old used counts trees.now nodes.now properties.old values.old)
        (memory text.new used counts trees.now nodes.now properties.new values.new)
        feed.now result }
{
    match feed_check::check_feed(text, used, counts, trees, nodes, properties, values, feed) {
        Err(refused) => Err(refused),
        Ok(()) => {
            let change = rows::measure(values, counts.values, feed);
            let kept = used - change.shrunk;
            if tables::TEXT_LIMIT - kept < change.grown {
                return Err(Refusal {
                    reason: FeedRefusal::TextTooLong,
                    place: 0,
                });
            }
            if text.len() - kept < change.grown {
                return Err(Refusal {
                    reason: FeedRefusal::NoRoom,
                    place: 0,
                });
            }
            sweep::rewrite(text, used, counts, trees, nodes, properties, values, feed);
            rows::move_properties(properties, counts.properties, values, counts.values, feed);
            rows::move_values(values, counts.values, feed);
            Ok(kept + change.grown)
        }
    }
}
