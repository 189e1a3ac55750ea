// A season in numbers: names of files on standard input, one a line, each with its line of the report as it is read; then the totals.
// `sgf_season STATUS` leaves in the file STATUS how it ended; `sgf_season STATUS REPORT..` adds the totals of reports.
#![tactic(auto)]

mod files; // files.rt: the line of a file
mod lines; // lines.rt: a stream, line by line
mod reports; // reports.rt: the totals of a report

ghost use Rattle.std.specs.Prelude.{◌≤◌, length};

use lines::Stream;
use season_totals::{Line, Totals};
use std::env::{Env, FillError};
use std::fs::File;
use std::io::{ErrorKind, IsTerminal, Print};
use std::os::fd::AsRawFd;
use std::process::ExitCode;

// Why a season stops: nobody reads standard output any more, or the totals are not those of all.
#[derive(Clone, Copy)]
enum Ended {
    Unheard,
    Short,
}

// Why the totals of a report are not added: it is not read, it is no report, or a sum is beyond 2^64 - 1.
#[derive(Clone, Copy)]
enum NotAdded {
    Unread,
    NoReport,
    Beyond,
}

// What was counted, and whether every file was accepted.
#[derive(Clone, Copy)]
struct Season {
    totals: Totals,
    files: u64,
    clean: bool,
}

// Room for a line of the report, whose name has at most 4,095 bytes, and for the totals.
fn line_room() -> [u8; 8192] {
    [0u8; 8192]
}

// Bytes to standard output.
fn say(rt: &HostRuntime, bytes: &[u8]) -> Result<(), Ended> {
    match rt.write_all(bytes) {
        Ok(()) => Ok(()),
        Err(error) => match error.kind() {
            ErrorKind::BrokenPipe => Err(Ended::Unheard),
            _ => Err(Ended::Short),
        },
    }
}

// A line to standard output, in one piece.
fn say_line(rt: &HostRuntime, line: Line, name: &[u8]) -> Result<(), Ended> {
    let mut room = line_room();
    let n = season_totals::put_line(&mut room, 0, line, tool::first(name, 4095));
    say(rt, tool::first(&room, n))
}

fn say_totals(rt: &HostRuntime, totals: Totals) -> Result<(), Ended> {
    let mut room = line_room();
    let n = season_totals::put_totals(&mut room, 0, totals);
    say(rt, tool::first(&room, n))
}

// How many files there were, on a standard error that is a terminal while standard output is none.
fn tell(rt: &HostRuntime, files: u64, end: &[u8]) {
    if !rt.stderr().is_terminal() {
        return;
    }
    if rt.stdout().is_terminal() {
        return;
    }
    io::write_all(2, b"\r");
    io::print_decimal(2, files);
    io::write_all(2, b" files");
    io::write_all(2, end);
}

impl Season {
    // Nothing yet.
    fn new() -> Season {
        Season {
            totals: Totals { sums: [0u64; 38] },
            files: 0,
            clean: true,
        }
    }

    // One file more: its line said and added.
    fn take_file(&mut self, rt: &HostRuntime, name: &[u8]) -> Result<(), Ended> {
        let line = files::file_line(rt, name);
        let said = say_line(rt, line, name);
        self.files = self.files.saturating_add(1);
        self.clean &= matches!(line, Line::Counted(_, _));
        if self.files % 64 == 0 {
            tell(rt, self.files, b"");
        }
        let sum = season_totals::added(self.totals, season_totals::line_sums(line));
        self.totals = sum.unwrap_or(self.totals);
        said?;
        if sum.is_none() {
            return Err(Ended::Short);
        }
        Ok(())
    }

    // All names of standard input. Fewer than 2^47 files have no sum of 2^64.
    fn take_names(
        &mut self,
        rt: &HostRuntime,
        block: &mut [u8],
        name: &mut [u8],
    ) -> Result<(), Ended> {
        let mut input = rt.stdin();
        let mut stream = Stream::new();
        for _ in 0..140737488355327u64 {
            let Some(kept) = stream.next_line(&mut input, block, name) else {
                break;
            };
            self.take_file(rt, tool::first(name, kept))?;
        }
        Ok(())
    }
}

// The argument's bytes at the start of a room, and how many; none where it is missing or has more than there is room for.
fn argument(rt: &HostRuntime, i: usize, room: &mut [u8]) -> usize
    ensures { result ≤ length room.new }
{
    rt.arg(i, room).unwrap_or(0)
}

fn has_argument(rt: &HostRuntime, i: usize) -> bool {
    let mut none = [0u8; 1];
    !matches!(rt.arg(i, &mut none), Err(FillError::NotPresent))
}

// How many there are, the program's name among them.
fn argument_count(rt: &HostRuntime) -> usize {
    for i in 0..usize::MAX {
        if !has_argument(rt, i) {
            return i;
        }
    }
    usize::MAX
}

// How it ended, into the file that the first argument names.
fn leave(rt: &HostRuntime, word: &[u8]) {
    let mut name = io::buffer();
    let n = argument(rt, 1, &mut name);
    let Ok(path) = str::from_utf8(&name[..n]) else {
        return;
    };
    let Ok(file) = File::create(rt, path) else {
        return;
    };
    io::write_all(file.as_raw_fd(), word);
}

// The status of a program that a pipe without a reader ended, as a shell tells it, is 141; the system itself ends none of ours.
fn leave_status(rt: &HostRuntime, clean: bool, ended: Result<(), Ended>) -> ExitCode {
    match ended {
        Err(Ended::Unheard) => {
            return ExitCode::from(141u8);
        }
        Err(Ended::Short) => {
            leave(rt, b"2");
        }
        Ok(()) => {
            leave(rt, if clean { b"0" } else { b"1" });
        }
    }
    ExitCode::SUCCESS
}

fn count_season(rt: &HostRuntime) -> ExitCode {
    let mut block = io::large_buffer();
    let mut name = io::buffer();
    let mut season = Season::new();
    let taken = season.take_names(rt, &mut block, &mut name);
    if let Err(Ended::Unheard) = taken {
        return leave_status(rt, season.clean, taken);
    }
    tell(rt, season.files, b"\n");
    let said = say_totals(rt, season.totals);
    leave_status(rt, season.clean, said.and(taken))
}

// What went wrong with which report.
fn leave_report(rt: &HostRuntime, why: NotAdded, i: u64) {
    let mut line = io::buffer();
    let n = match why {
        NotAdded::Unread => tool::put_count(&mut line, 0, b"unread ", i),
        NotAdded::NoReport => tool::put_count(&mut line, 0, b"no ", i),
        NotAdded::Beyond => tool::put_count(&mut line, 0, b"beyond ", i),
    };
    leave(rt, tool::first(&line, n));
}

// The totals with those of report i added.
fn add_report(
    rt: &HostRuntime,
    i: usize,
    totals: Totals,
    block: &mut [u8],
    name: &mut [u8],
) -> Result<Totals, NotAdded> {
    let n = argument(rt, i, name);
    let Ok(path) = str::from_utf8(tool::first(name, n)) else {
        return Err(NotAdded::Unread);
    };
    let Ok(mut file) = File::open(rt, path) else {
        return Err(NotAdded::Unread);
    };
    if files::is_folder(&mut file) {
        return Err(NotAdded::Unread);
    }
    let report = reports::read_report(&mut file, block, name).ok_or(NotAdded::NoReport)?;
    season_totals::added(totals, report).ok_or(NotAdded::Beyond)
}

// The totals of all reports that the arguments name, from the second on.
fn add_reports(rt: &HostRuntime, count: usize) -> ExitCode {
    let mut block = io::large_buffer();
    let mut name = io::buffer();
    let mut totals = Totals { sums: [0u64; 38] };
    for i in 2..count {
        match add_report(rt, i, totals, &mut block, &mut name) {
            Ok(sum) => {
                totals = sum;
            }
            Err(why) => {
                leave_report(rt, why, i as u64);
                return ExitCode::SUCCESS;
            }
        }
    }
    leave_status(rt, true, say_totals(rt, totals))
}

fn main(rt: HostRuntime) -> ExitCode {
    let count = argument_count(&rt);
    if count <= 2 {
        return count_season(&rt);
    }
    add_reports(&rt, count)
}
