// The totals of a report: the line `total`, the line `accepted` and the lines `refused` at its end.
use crate::lines::Stream;
use season_totals::Totals;
use std::io::Read;

// How far a report was read: no totals yet; the line `total`; the line `accepted` too, with the least number that a line `refused` may still have.
#[derive(Clone, Copy)]
enum Report {
    Files,
    Summed(Totals),
    Accepted(Totals, u64),
}

// A tab and a number below 2^64, and what is behind them.
fn column(line: &[u8]) -> Option<(u64, &[u8])> {
    let rest = line.strip_prefix(b"\t")?;
    let n = rest
        .iter()
        .position(|b| !b.is_ascii_digit())
        .unwrap_or(rest.len());
    let (digits, behind) = rest.split_at(n);
    let value = str::from_utf8(digits).ok()?.parse::<u64>().ok()?;
    Some((value, behind))
}

// The same at the end of a line.
fn last_column(line: &[u8]) -> Option<u64> {
    let (value, behind) = column(line)?;
    if !behind.is_empty() {
        return None;
    }
    Some(value)
}

// The line `total` and its five sums. Every line before it is one of the files.
fn take_sums(line: &[u8]) -> Option<Report> {
    if !line.starts_with(b"total\t") {
        return Some(Report::Files);
    }
    let mut sums = [0u64; 38];
    let mut rest = line.strip_prefix(b"total")?;
    for i in 1..6 {
        let (value, behind) = column(rest)?;
        sums[i] = value;
        rest = behind;
    }
    if !rest.is_empty() {
        return None;
    }
    Some(Report::Summed(Totals { sums }))
}

// The line `accepted` behind it.
fn take_accepted(line: &[u8], totals: Totals) -> Option<Report> {
    let mut sums = totals.sums;
    sums[0] = last_column(line.strip_prefix(b"accepted")?)?;
    Some(Report::Accepted(Totals { sums }, 0))
}

// A line `refused`; the numbers ascend, and each is below 32.
fn take_refused(line: &[u8], totals: Totals, least: u64) -> Option<Report> {
    let (number, behind) = column(line.strip_prefix(b"refused")?)?;
    let count = last_column(behind)?;
    if (number < least) | (32 <= number) {
        return None;
    }
    let mut sums = totals.sums;
    sums[6 + number as usize] = count;
    Some(Report::Accepted(Totals { sums }, number + 1))
}

// One line more, if it may stand there.
fn take(line: &[u8], report: Report) -> Option<Report> {
    match report {
        Report::Files => take_sums(line),
        Report::Summed(totals) => take_accepted(line, totals),
        Report::Accepted(totals, least) => take_refused(line, totals, least),
    }
}

// The totals of an open report, if it is one. A line is kept up to its 4,096th byte; no line of the totals is as long.
pub fn read_report(file: &mut impl Read, block: &mut [u8], line: &mut [u8]) -> Option<Totals> {
    let mut report = Report::Files;
    let mut stream = Stream::new();
    for _ in 0..u64::MAX {
        let Some(kept) = stream.next_line(file, block, line) else {
            break;
        };
        report = take(tool::first(line, kept), report)?;
    }
    match report {
        Report::Files => None,
        Report::Summed(_) => None,
        Report::Accepted(totals, _) => Some(totals),
    }
}
