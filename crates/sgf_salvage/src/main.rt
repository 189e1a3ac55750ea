// Standard input salvaged: what was changed, a line a change, then `record` and the text that strict reading accepts with a line feed. A refusal is one line. At most 65,536 bytes, of the result 400,000.
#![tactic(auto)]

ghost use Rattle.std.specs.Prelude.{◌<◌};

use tables::Refusal;

fn say_refused(number: u32, place: usize) {
    let mut line = io::buffer();
    let n = tool::put_refused(&mut line, 0, number, place);
    io::write_all(1, tool::first(&line, n));
    io::write_all(1, b"\n");
}

// Words, a number, and words behind it.
fn say(words: &[u8], n: u32, behind: &[u8]) {
    io::write_all(1, words);
    io::print_decimal(1, n as u64);
    io::write_all(1, behind);
}

// A change by its row.
fn say_change(kind: u32, number: u32, place: u32) {
    match kind {
        0 => {
            say(b"tree ", number, b" cut short");
            say(b" at ", place, b"\n");
        }
        1 => say(b"tree ", number, b" given an empty root\n"),
        2 => say(b"property ", number, b" removed: no identifier\n"),
        3 => say(b"property ", number, b" spelled anew\n"),
        4 => say(b"property ", number, b" removed: GM\n"),
        _ => say(b"not read from ", place, b"\n"),
    }
}

// A cell of a row of the list; 0 where there is no such row.
fn cell(rows: &[u32], i: usize, column: usize) -> u32
    requires { column < 3 }
{
    if i < rows.len() / 3 {
        return rows[i * 3 + column];
    }
    0
}

// The first rows of the list.
fn say_changes(rows: &[u32], count: usize) {
    for i in 0..count {
        say_change(cell(rows, i, 0), cell(rows, i, 1), cell(rows, i, 2));
    }
}

fn say_text(text: &[u8]) {
    let mut trees = tool::pair_rows();
    let mut nodes = tool::node_rows();
    let mut properties = tool::property_rows();
    let mut values = tool::pair_rows();
    let mut changes = [0u32; 262146];
    let mut out = tool::out_room();
    match salvage::salvage(
        text,
        &mut trees,
        &mut nodes,
        &mut properties,
        &mut values,
        &mut changes,
        &mut out,
    ) {
        Ok((_, length, count)) => {
            say_changes(&changes, count);
            io::write_all(1, b"record\n");
            io::write_all(1, tool::first(&out, length));
            io::write_all(1, b"\n");
        }
        Err(Refusal { reason, place }) => {
            say_refused(u32::from(reason), place);
        }
    }
}

fn main() {
    let mut input = tool::text_room();
    let n = io::read_full(0, &mut input);
    if 65536 < n {
        say_refused(1, 0);
        return;
    }
    say_text(&input[..n]);
}
