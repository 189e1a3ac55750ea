// The value edit, in place: one value's bytes in the lent text, and the places of the rows behind it.
#![tactic(auto)]

mod rows; // rows.rt: the places in the rows moved

ghost use Rattle.edit.specs.Lent.{EditIs};
ghost use Rattle.tables.specs.Memory.{memory};

use tables::{Counts, Reason, Refusal};

// The bytes of value k, of tables that fit the first `used` bytes of the text, replaced by the new ones.
pub fn edit(
    text: &mut [u8],
    used: usize,
    counts: Counts,
    trees: &[u32],
    nodes: &[u32],
    properties: &mut [u32],
    values: &mut [u32],
    k: usize,
    new: &[u8],
) -> Result<usize, Refusal<Reason>>
    ensures { EditIs
        (memory text.old used counts trees.now nodes.now properties.old values.old)
        (memory text.new used counts trees.now nodes.now properties.new values.new)
        k new.now result }
{
    match edit_answer::answer(text, used, counts, trees, nodes, properties, values, k, new) {
        Err(refused) => Err(refused),
        Ok(length) => {
            let span = rows::span_of(values, k);
            let start = span.start;
            let end = span.end;
            edit_splice::replace(text, used, start, end, new);
            rows::move_properties(properties, counts.properties, k, start, end, new.len());
            rows::move_values(values, counts.values, k, start, end, new.len());
            Ok(length)
        }
    }
}
