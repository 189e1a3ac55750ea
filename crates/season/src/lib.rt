// The line of a text in a season's report: read strictly, counted, written and tagged, in memory that is lent once for all texts.
#![tactic(auto)]

ghost use Rattle.tables.specs.Memory.{memory};
ghost use Rattle.parser.specs.Read.{read_strict};
ghost use Rattle.reader.specs.Lent.{lent};
ghost use Rattle.season.specs.Season.{LineIs, RecordLineIs};

use season_totals::Line;
use tables::{Counts, Refusal};

// The line of a record in memory, whose writing is put into `out`: its tally and the tag of its writing, or the number of a refusal: 19, 15, 14.
pub fn record_line(
    text: &[u8],
    used: usize,
    counts: Counts,
    trees: &[u32],
    nodes: &[u32],
    properties: &[u32],
    values: &[u32],
    out: &mut [u8],
) -> Line
    ensures { RecordLineIs
        (memory text.now used counts trees.now nodes.now properties.now values.now)
        out.old out.new result }
{
    match season_tally::write_tally(text, used, counts, trees, nodes, properties, values, out) {
        Err(reason) => Line::Refused(u32::from(reason)),
        Ok((_, tally, tag)) => Line::Counted(tally, tag),
    }
}

// The line of a text. The tables are those of its strict reading after it, and `out` has its writing.
pub fn line(
    text: &[u8],
    trees: &mut [u32],
    nodes: &mut [u32],
    properties: &mut [u32],
    values: &mut [u32],
    out: &mut [u8],
) -> Line
    ensures { LineIs (read_strict text.now)
        (lent trees.old nodes.old properties.old values.old)
        (lent trees.new nodes.new properties.new values.new)
        out.old out.new result }
{
    match reader::read_strict(text, trees, nodes, properties, values) {
        Err(refused) => Line::Refused(u32::from(refused.reason)),
        Ok(counts) => {
            record_line(
                text,
                text.len(),
                counts,
                trees,
                nodes,
                properties,
                values,
                out,
            )
        }
    }
}
