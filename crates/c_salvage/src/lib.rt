// Salvage as the struct of the C header.
#![tactic(auto)]

ghost use Rattle.std.specs.Prelude.{◌≡◌};
ghost use Rattle.reader.specs.Lent.{lent};
ghost use Rattle.c_salvage.specs.SalvageInC.{salvage_in_c, SalvageInC};

use tables::{Counts, Reason, Refusal};

// Number 0, how many bytes and changes were written and the counts of the tables; or the number of a refusal and its place, all else 0.
#[repr(C)]
#[derive(Clone, Copy)]
pub struct SgfSalvage {
    pub number: u32,
    pub reserved: u32,
    pub place: usize,
    pub length: usize,
    pub changes: usize,
    pub counts: Counts,
}

// A salvage.
pub fn salvage_in_c(answer: Result<(Counts, usize, usize), Refusal<Reason>>) -> SgfSalvage
    ensures { result ≡ salvage_in_c answer }
{
    match answer {
        Ok((counts, length, changes)) => SgfSalvage {
            number: 0,
            reserved: 0,
            place: 0,
            length: length,
            changes: changes,
            counts: counts,
        },
        Err(refused) => SgfSalvage {
            number: u32::from(refused.reason),
            reserved: 0,
            place: refused.place,
            length: 0,
            changes: 0,
            counts: Counts {
                trees: 0,
                nodes: 0,
                properties: 0,
                values: 0,
            },
        },
    }
}

// Salvages a text into lent memory.
pub fn salvage(
    text: &[u8],
    trees: &mut [u32],
    nodes: &mut [u32],
    properties: &mut [u32],
    values: &mut [u32],
    changes: &mut [u32],
    out: &mut [u8],
) -> SgfSalvage
    ensures { SalvageInC text.now
        (lent trees.old nodes.old properties.old values.old)
        (lent trees.new nodes.new properties.new values.new)
        changes.old changes.new out.old out.new result }
{
    salvage_in_c(salvage::salvage(text, trees, nodes, properties, values, changes, out))
}
