// Salvage: out of any text one that strict reading accepts, and a list of what was changed. All is decided over the tokens before anything is written: then the text is
// read leniently into lent tables, and its record is mended as it is written.
#![tactic(auto)]

ghost use Rattle.std.specs.Prelude.{◌≡◌};
ghost use Rattle.reader.specs.Lent.{lent};
ghost use Rattle.salvage_list.specs.ListRows.{text_changes};
ghost use Rattle.salvage_list.specs.LocalsPuts.{EntriesPut};
ghost use Rattle.salvage_measure.specs.LocalsMeasure.{SlicesTold};
ghost use Rattle.salvage.specs.Salvage.{SalvageIs};
ghost use Rattle.salvage.specs.LocalsRecord.{whole_text, Decided, WrittenWhole};

use salvage_measure::Weighed;
use tables::{Counts, LenientRefusal, Reason, Refusal};

// Numbers in a row of the list.
const CHANGE_STRIDE: usize = 3;

// The list of a text, each entry where there is room; how many they are. The slices that are found are not looked for again.
fn put_list(text: &[u8], weighed: Weighed, changes: &mut [u32]) -> usize
    requires { SlicesTold text.now weighed }
    ensures { EntriesPut changes.old 0 (text_changes text.now) result changes.new }
{
    if 0 < weighed.slices {
        return salvage_list::put_found(text, weighed.first, weighed.last, weighed.slices, changes);
    }
    salvage_list::put_all(text, changes)
}

// Of a record in the tables of its text, where there is room: the result and the list of so many changes.
fn write_record(
    text: &[u8],
    counts: Counts,
    trees: &[u32],
    nodes: &[u32],
    properties: &[u32],
    values: &[u32],
    count: usize,
    weighed: Weighed,
    changes: &mut [u32],
    out: &mut [u8],
) -> Result<(Counts, usize, usize), Refusal<Reason>>
    requires { Decided (whole_text text.now counts trees.now nodes.now properties.now values.now)
        (text_changes text.now) changes.old out.old count × SlicesTold text.now weighed }
    ensures { WrittenWhole
        (whole_text text.now counts trees.now nodes.now properties.now values.now)
        (text_changes text.now) changes.old changes.new out.old out.new result }
{
    let n = serialize::put_mended(
        text,
        text.len(),
        counts,
        trees,
        nodes,
        properties,
        values,
        out,
    );
    if 0 < count {
        put_list(text, weighed, changes);
    }
    Ok((counts, n, count))
}

// Reads a text leniently into the lent tables, writes the mended record to `out` and what was changed to `changes`.
pub fn salvage(
    text: &[u8],
    trees: &mut [u32],
    nodes: &mut [u32],
    properties: &mut [u32],
    values: &mut [u32],
    changes: &mut [u32],
    out: &mut [u8],
) -> Result<(Counts, usize, usize), Refusal<Reason>>
    ensures { SalvageIs text.now
        (lent trees.old nodes.old properties.old values.old)
        (lent trees.new nodes.new properties.new values.new)
        changes.old changes.new out.old out.new result }
{
    let known = reader::known_text(text);
    let weighed = salvage_measure::weigh_known(text, known);
    let result = weighed.result;
    let bytes = result.bytes;
    let depth = result.depth;
    if tables::TEXT_LIMIT < bytes {
        return Err(Refusal {
            reason: Reason::TextTooLong,
            place: 0,
        });
    }
    if tables::DEPTH_LIMIT < depth {
        return Err(Refusal {
            reason: Reason::TooDeep,
            place: 0,
        });
    }
    let count = weighed.changes;
    if changes.len() / CHANGE_STRIDE < count {
        return Err(Refusal {
            reason: Reason::NoRoom,
            place: 0,
        });
    }
    if out.len() < bytes {
        return Err(Refusal {
            reason: Reason::NoRoom,
            place: 0,
        });
    }
    match reader::read_known(text, known, trees, nodes, properties, values) {
        Err(refused) => match refused {
            LenientRefusal::TextTooLong => Err(Refusal {
                reason: Reason::TextTooLong,
                place: 0,
            }),
            LenientRefusal::NotUtf8(place) => Err(Refusal {
                reason: Reason::NotUtf8,
                place,
            }),
            LenientRefusal::TooDeep => Err(Refusal {
                reason: Reason::TooDeep,
                place: 0,
            }),
            LenientRefusal::NoRoom => Err(Refusal {
                reason: Reason::NoRoom,
                place: 0,
            }),
        },
        Ok(counts) => write_record(
            text, counts, trees, nodes, properties, values, count, weighed, changes, out,
        ),
    }
}
