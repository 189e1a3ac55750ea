// A season in numbers: the tag of bytes, the tally of a record, its line in a report.
ghost use Rattle.std.specs.Prelude.{◌≡◌};
ghost use Rattle.tables.specs.Memory.{memory};
ghost use Rattle.season_tag.specs.Tag.{tag_of};
ghost use Rattle.c_tally.specs.TallyInC.{tally_or_number};
ghost use Rattle.c_tally.specs.LineInC.{LineInC};

use c_tally::{SgfLine, SgfTally};
use tables::Counts;

// The tag of the bytes: FNV-1a, 64 bits.
#[unsafe(no_mangle)]
pub extern "C" fn sgf_tag(bytes: &[u8]) -> u64
    ensures { result ≡ tag_of bytes.now }
{
    sgf::season::sgf_tag(bytes)
}

// How many trees, nodes, moves of each colour and passes a record has, or 19.
#[unsafe(no_mangle)]
pub extern "C" fn sgf_tally(
    text: &[u8],
    used: usize,
    counts: Counts,
    trees: &[u32],
    nodes: &[u32],
    properties: &[u32],
    values: &[u32],
) -> SgfTally
    ensures { result ≡ tally_or_number
        (memory text.now used counts trees.now nodes.now properties.now values.now) }
{
    sgf::season::sgf_tally(text, used, counts, trees, nodes, properties, values)
}

// The line of a record in a season's report: its tally and the tag of its writing, which is put into `out`. Numbers: 19, 15, 14.
#[unsafe(no_mangle)]
pub extern "C" fn sgf_line(
    text: &[u8],
    used: usize,
    counts: Counts,
    trees: &[u32],
    nodes: &[u32],
    properties: &[u32],
    values: &[u32],
    out: &mut [u8],
) -> SgfLine
    ensures { LineInC
        (memory text.now used counts trees.now nodes.now properties.now values.now)
        out.old out.new result }
{
    sgf::season::sgf_line(text, used, counts, trees, nodes, properties, values, out)
}
