// The length of a writing without an output.
ghost use Rattle.std.specs.Prelude.{◌≡◌};
ghost use Rattle.tables.specs.Memory.{memory};
ghost use Rattle.serialize.specs.Form.{written_length};
ghost use Rattle.c_answers.specs.Structs.{writing_in_c};

use c_answers::SgfWriting;
use tables::Counts;

// How many bytes sgf_write needs and would write, or why it would write none: 19, 15.
#[unsafe(no_mangle)]
pub extern "C" fn sgf_write_length(
    text: &[u8],
    used: usize,
    counts: Counts,
    trees: &[u32],
    nodes: &[u32],
    properties: &[u32],
    values: &[u32],
) -> SgfWriting
    ensures { result ≡ writing_in_c (written_length
        (memory text.now used counts trees.now nodes.now properties.now values.now)) }
{
    sgf::length::sgf_write_length(text, used, counts, trees, nodes, properties, values)
}
