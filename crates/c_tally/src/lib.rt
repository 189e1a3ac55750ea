// The tally of a record, and its line in a season's report, as structs of the C header.
#![tactic(auto)]

ghost use Rattle.std.specs.Prelude.{◌≡◌};
ghost use Rattle.tables.specs.Memory.{memory};
ghost use Rattle.season_tally.specs.Tally.{tally_answer};
ghost use Rattle.c_tally.specs.TallyInC.{tally_in_c, tally_or_number};
ghost use Rattle.c_tally.specs.LineInC.{LineInC};

use season_totals::Tally;
use tables::{Counts, Reason};

// A number; trees, nodes, moves of each colour without passes, passes.
#[repr(C)]
#[derive(Clone, Copy)]
pub struct SgfTally {
    pub number: u32,
    pub reserved: u32,
    pub trees: usize,
    pub nodes: usize,
    pub black: usize,
    pub white: usize,
    pub passes: usize,
}

// An answer, shown.
fn in_c(answer: Option<Tally>) -> SgfTally
    ensures { result ≡ tally_in_c answer }
{
    match answer {
        Some(tally) => SgfTally {
            number: 0,
            reserved: 0,
            trees: tally.trees,
            nodes: tally.nodes,
            black: tally.black,
            white: tally.white,
            passes: tally.passes,
        },
        None => SgfTally {
            number: u32::from(Reason::NotFitting),
            reserved: 0,
            trees: 0,
            nodes: 0,
            black: 0,
            white: 0,
            passes: 0,
        },
    }
}

// The tally of a record, or 19.
pub fn tally(
    text: &[u8],
    used: usize,
    counts: Counts,
    trees: &[u32],
    nodes: &[u32],
    properties: &[u32],
    values: &[u32],
) -> SgfTally
    ensures { result ≡ tally_or_number
        (memory text.now used counts trees.now nodes.now properties.now values.now) }
{
    in_c(season_tally::tally(text, used, counts, trees, nodes, properties, values))
}

// Number 0, how many bytes were written, the tally of the record and the tag of its writing; or the number of a refusal, all else 0.
#[repr(C)]
#[derive(Clone, Copy)]
pub struct SgfLine {
    pub number: u32,
    pub reserved: u32,
    pub length: usize,
    pub trees: usize,
    pub nodes: usize,
    pub black: usize,
    pub white: usize,
    pub passes: usize,
    pub tag: u64,
}

// The line of a record, whose writing is put into `out`; or 19, 15, 14.
pub fn line(
    text: &[u8],
    used: usize,
    counts: Counts,
    trees: &[u32],
    nodes: &[u32],
    properties: &[u32],
    values: &[u32],
    out: &mut [u8],
) -> SgfLine
    ensures { LineInC
        (memory text.now used counts trees.now nodes.now properties.now values.now)
        out.old out.new result }
{
    match season_tally::write_tally(text, used, counts, trees, nodes, properties, values, out) {
        Err(reason) => SgfLine {
            number: u32::from(reason),
            reserved: 0,
            length: 0,
            trees: 0,
            nodes: 0,
            black: 0,
            white: 0,
            passes: 0,
            tag: 0,
        },
        Ok((n, counted, tag)) => SgfLine {
            number: 0,
            reserved: 0,
            length: n,
            trees: counted.trees,
            nodes: counted.nodes,
            black: counted.black,
            white: counted.white,
            passes: counted.passes,
            tag: tag,
        },
    }
}
