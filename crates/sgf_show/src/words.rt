// Refusals in words, with line and column where a number has a place.
ghost use Rattle.std.specs.Prelude.{◌+◌, ◌≤◌};

use crate::say_count;
use tables::Reason;

fn say_other(reason: Reason) -> bool {
    match reason {
        Reason::UnexpectedProperty => io::write_all(
            1,
            b"a property outside a node, or more than one GM",
        ),
        Reason::InvalidGameType => io::write_all(1, b"a GM that is not one whole number"),
        Reason::NoRoom => io::write_all(1, b"more rows than there is room for"),
        _ => io::write_all(1, b"another reason"),
    }
}

fn say_of_trees(reason: Reason) -> bool {
    match reason {
        Reason::UnexpectedGameTreeEnd => io::write_all(1, b"a ) without its ("),
        Reason::UnexpectedEndOfData => io::write_all(
            1,
            b"a ( without its ), or a tree without a node",
        ),
        Reason::NoGameTrees => io::write_all(1, b"no game tree"),
        Reason::TooDeep => io::write_all(1, b"more than 1,024 open trees"),
        Reason::UnexpectedGameTreeStart => io::write_all(
            1,
            b"a variation before the first node of its tree",
        ),
        _ => say_other(reason),
    }
}

fn say_meaning(reason: Reason) -> bool {
    match reason {
        Reason::TextTooLong => io::write_all(1, b"longer than 65,536 bytes"),
        Reason::NotUtf8 => io::write_all(1, b"not UTF-8"),
        Reason::MissingPropertyIdentifier => io::write_all(
            1,
            b"a property identifier without a value",
        ),
        Reason::UnexpectedEndOfPropertyIdentifier => io::write_all(
            1,
            b"a character in a property identifier that is not ASCII",
        ),
        Reason::UnexpectedEndOfPropertyValue => io::write_all(1, b"a property value without its ]"),
        _ => say_of_trees(reason),
    }
}

fn line_behind(b: u8, line: usize) -> usize
    requires { line ≤ 65537 }
    ensures { result ≤ line + 1 }
{
    if b == b'\n' {
        return line + 1;
    }
    line
}

// The column behind a byte. Only the first byte of a character counts.
fn column_behind(b: u8, column: usize) -> usize
    requires { column ≤ 65537 }
    ensures { result ≤ column + 1 }
{
    if b == b'\n' {
        return 1;
    }
    if (b < 128) | (191 < b) {
        return column + 1;
    }
    column
}

// Line and column of a place, in characters from 1 on.
fn say_spot(text: &[u8], place: usize)
    requires { place ≤ 65536 }
{
    let mut line = 1;
    let mut column = 1;
    for &b in &text[..place.min(text.len())] {
        line = line_behind(b, line);
        column = column_behind(b, column);
    }
    say_count(b" (line ", line);
    say_count(b", column ", column);
    io::write_all(1, b")");
}

fn say_number(number: u32, place: usize) {
    let mut line = io::buffer();
    let n = tool::put_refused(&mut line, 0, number, place);
    io::write_all(1, tool::first(&line, n));
}

// Numbers 2 to 5 have a place.
pub fn say_refused(text: &[u8], reason: Reason, place: usize) {
    let number = u32::from(reason);
    say_number(number, place);
    io::write_all(1, b": ");
    say_meaning(reason);
    if (2 <= number) & (number <= 5) {
        if place <= 65536 {
            say_spot(text, place);
        }
    }
    io::write_all(1, b"\n");
}
