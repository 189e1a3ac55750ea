// A report: what a line says of one file, the sums of lines, and both as bytes.
#![tactic(auto)]

ghost use Rattle.std.specs.Prelude.{◌≡◌};
ghost use Rattle.store_bytes.specs.LocalsWrote.{Wrote};
ghost use Rattle.season_totals.specs.Totals.{line_sums, added_to};
ghost use Rattle.season_totals.specs.Report.{column, tally_text, named, line_text, count_text, refused_text, sums_text, totals_text};

// What is counted in a record: trees, nodes, moves of each colour that are points, passes.
#[derive(Clone, Copy)]
pub struct Tally {
    pub trees: usize,
    pub nodes: usize,
    pub black: usize,
    pub white: usize,
    pub passes: usize,
}

// What a report says of one file: it could not be read; the record is refused, by its number; or its tally and its tag.
#[derive(Clone, Copy)]
pub enum Line {
    Unread,
    Refused(u32),
    Counted(Tally, u64),
}

// The sums of lines: accepted records, trees, nodes, moves of black, of white, passes; then, for each number below 32, records that it refused.
#[derive(Clone, Copy)]
pub struct Totals {
    pub sums: [u64; 38],
}

// What one line adds.
pub fn line_sums(line: Line) -> Totals
    ensures { result.sums ≡ line_sums line }
{
    let mut sums = [0u64; 38];
    match line {
        Line::Unread => Totals { sums: sums },
        Line::Refused(number) => {
            if number < 32 {
                let place = number as usize;
                sums[6 + place] = 1;
            }
            Totals { sums: sums }
        }
        Line::Counted(tally, _) => {
            sums[0] = 1;
            sums[1] = tally.trees as u64;
            sums[2] = tally.nodes as u64;
            sums[3] = tally.black as u64;
            sums[4] = tally.white as u64;
            sums[5] = tally.passes as u64;
            Totals { sums: sums }
        }
    }
}

// The sums of two, column by column, where each is below 2^64.
pub fn added(left: Totals, right: Totals) -> Option<Totals>
    ensures { result ≡ added_to left.sums right.sums }
{
    let mut sums = left.sums;
    for i in 0..38 {
        sums[i] = sums[i].checked_add(right.sums[i])?;
    }
    Some(Totals { sums })
}

// A tab and a number, and the place after them.
fn put_column(out: &mut [u8], at: usize, n: u64) -> usize
    ensures { Wrote (column n) out.old at out.new result }
{
    tool::put_count(out, at, b"\t", n)
}

// The five columns of a tally.
fn put_tally(out: &mut [u8], at: usize, tally: Tally) -> usize
    ensures { Wrote (tally_text tally) out.old at out.new result }
{
    let a = put_column(out, at, tally.trees as u64);
    let b = put_column(out, a, tally.nodes as u64);
    let c = put_column(out, b, tally.black as u64);
    let d = put_column(out, c, tally.white as u64);
    put_column(out, d, tally.passes as u64)
}

// A tab, a name and a line feed.
fn put_name(out: &mut [u8], at: usize, name: &[u8]) -> usize
    ensures { Wrote (named name.now) out.old at out.new result }
{
    let a = store_bytes::put_byte(out, at, b'\t');
    let b = store_bytes::put_bytes(out, a, name);
    store_bytes::put_byte(out, b, b'\n')
}

// A line of the report with the name of its file, and the place after it.
pub fn put_line(out: &mut [u8], at: usize, line: Line, name: &[u8]) -> usize
    ensures { Wrote (line_text line name.now) out.old at out.new result }
{
    match line {
        Line::Unread => {
            let a = store_bytes::put_bytes(out, at, b"unread");
            put_name(out, a, name)
        }
        Line::Refused(number) => {
            let a = values::spell::put_decimal(out, at, number as u64);
            let b = store_bytes::put_bytes(out, a, b"\t-\t-\t-\t-\t-\t-");
            put_name(out, b, name)
        }
        Line::Counted(tally, tag) => {
            let a = store_bytes::put_bytes(out, at, b"accepted");
            let b = put_tally(out, a, tally);
            let c = store_bytes::put_byte(out, b, b'\t');
            let d = season_tag::put_hex(out, c, tag);
            put_name(out, d, name)
        }
    }
}

// How many records a number refused, if there are any.
fn put_refused(out: &mut [u8], at: usize, number: u64, count: u64) -> usize
    ensures { Wrote (count_text number count) out.old at out.new result }
{
    if count == 0 {
        return at;
    }
    let a = store_bytes::put_bytes(out, at, b"refused");
    let b = put_column(out, a, number);
    let c = put_column(out, b, count);
    store_bytes::put_byte(out, c, b'\n')
}

// The numbers that occurred, ascending.
fn put_numbers(out: &mut [u8], at: usize, totals: Totals) -> usize
    ensures { Wrote (refused_text 0 32 totals.sums) out.old at out.new result }
{
    let sums = totals.sums;
    let mut next = at;
    for number in 0..32 {
        next = put_refused(out, next, number as u64, sums[6 + number]);
    }
    next
}

// The sums of trees, nodes, moves and passes.
fn put_sums(out: &mut [u8], at: usize, totals: Totals) -> usize
    ensures { Wrote (sums_text totals.sums) out.old at out.new result }
{
    let sums = totals.sums;
    let a = store_bytes::put_bytes(out, at, b"total");
    let b = put_column(out, a, sums[1]);
    let c = put_column(out, b, sums[2]);
    let d = put_column(out, c, sums[3]);
    let e = put_column(out, d, sums[4]);
    put_column(out, e, sums[5])
}

// The totals, and the place after them.
pub fn put_totals(out: &mut [u8], at: usize, totals: Totals) -> usize
    ensures { Wrote (totals_text totals.sums) out.old at out.new result }
{
    let sums = totals.sums;
    let a = put_sums(out, at, totals);
    let b = store_bytes::put_bytes(out, a, b"\naccepted");
    let c = put_column(out, b, sums[0]);
    let d = store_bytes::put_byte(out, c, b'\n');
    put_numbers(out, d, totals)
}
