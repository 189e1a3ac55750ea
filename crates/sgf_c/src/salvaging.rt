// Salvage: out of a damaged text one that strict reading accepts, with the list of what was changed.
ghost use Rattle.reader.specs.Lent.{lent};
ghost use Rattle.c_salvage.specs.SalvageInC.{SalvageInC};

use c_salvage::SgfSalvage;

// Reads leniently into the tables, writes the mended record and the list of changes.
#[unsafe(no_mangle)]
pub extern "C" fn sgf_salvage(
    text: &[u8],
    trees: &mut [u32],
    nodes: &mut [u32],
    properties: &mut [u32],
    values: &mut [u32],
    changes: &mut [u32],
    out: &mut [u8],
) -> SgfSalvage
    ensures { SalvageInC text.now
        (lent trees.old nodes.old properties.old values.old)
        (lent trees.new nodes.new properties.new values.new)
        changes.old changes.new out.old out.new result }
{
    sgf::salvaging::sgf_salvage(text, trees, nodes, properties, values, changes, out)
}
