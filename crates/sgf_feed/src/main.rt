// Standard input, a line `K BYTES` for each correction, as a feed; a line that is none, and a number too large for a feed, are said in one line.
#![tactic(auto)]

use feed::make::MakeFault;

// The first line feed from a place on; the end where there is none.
fn line_end(text: &[u8], at: usize) -> usize {
    for end in at..text.len() {
        if text[end] == b'\n' {
            return end;
        }
    }
    text.len()
}

// The place behind the line that begins at a place.
fn line_next(text: &[u8], at: usize) -> usize {
    let end = line_end(text, at);
    if end < text.len() {
        return end + 1;
    }
    text.len()
}

// The first byte from a place on that is no digit.
fn digits_end(text: &[u8], at: usize) -> usize {
    for end in at..text.len() {
        if !text[end].is_ascii_digit() {
            return end;
        }
    }
    text.len()
}

// The number that digits spell; one that is too large for a feed where it is.
fn number_at(text: &[u8], at: usize) -> usize {
    let mut value: usize = 0;
    for i in at..text.len() {
        let b = text[i];
        if !b.is_ascii_digit() || 268435456 <= value {
            return value;
        }
        value = value * 10 + usize::from(b - b'0');
    }
    value
}

// A part of a text, as much of it as there is.
fn part<'a>(text: &'a [u8], from: usize, to: usize) -> &'a [u8] {
    if text.len() < to {
        return &text[..0];
    }
    if to < from {
        return &text[..0];
    }
    &text[from..to]
}

// Whether the line at a place is a number, a space and bytes.
fn is_line(text: &[u8], at: usize) -> bool {
    let end = digits_end(text, at);
    if end <= at {
        return false;
    }
    if text.len() <= end {
        return false;
    }
    text[end] == b' '
}

// The place behind the space of a line.
fn bytes_from(text: &[u8], at: usize) -> usize {
    let end = digits_end(text, at);
    if end < text.len() {
        return end + 1;
    }
    text.len()
}

fn say_line(n: u64, words: &[u8]) {
    io::write_all(1, b"line ");
    io::print_decimal(1, n);
    io::write_all(1, words);
}

// How many lines there are, each a correction of a greater number than the one before. Where one is not, that is said.
fn checked(text: &[u8]) -> Option<usize> {
    let mut at: usize = 0;
    let mut low: usize = 0;
    let mut count: usize = 0;
    for _ in 0..text.len() {
        if text.len() <= at {
            return Some(count);
        }
        if 1000000 <= count {
            return None;
        }
        if !is_line(text, at) {
            say_line(count as u64 + 1, b" is not a number, a space and bytes\n");
            return None;
        }
        let value = number_at(text, at);
        if 268435456 <= value {
            say_line(count as u64 + 1, b" has a number too large for a feed\n");
            return None;
        }
        if value < low {
            say_line(
                count as u64 + 1,
                b" does not have a greater number than the line before\n",
            );
            return None;
        }
        low = value + 1;
        at = line_next(text, at);
        count += 1;
    }
    Some(count)
}

fn write_made(out: &[u8], made: Result<usize, MakeFault>) {
    if let Ok(n) = made {
        io::write_all(1, tool::first(out, n));
    }
}

fn write_count(count: usize) {
    let mut out = tool::out_room();
    let made = feed::make::put_count(&mut out, count);
    write_made(&out, made);
}

// The correction of the line at a place.
fn write_line(text: &[u8], at: usize) {
    let mut out = tool::out_room();
    let value = number_at(text, at);
    let new = part(text, bytes_from(text, at), line_end(text, at));
    let made = feed::make::put_correction(&mut out, value, new);
    write_made(&out, made);
}

fn make(text: &[u8], count: usize) {
    write_count(count);
    let mut at: usize = 0;
    for _ in 0..count {
        write_line(text, at);
        at = line_next(text, at);
    }
}

fn make_lines(text: &[u8]) {
    if let Some(count) = checked(text) {
        make(text, count);
    }
}

fn main() {
    let mut input = tool::text_room();
    let n = io::read_full(0, &mut input);
    if 65536 < n {
        io::write_all(1, b"the lines have more than 65,536 bytes\n");
        return;
    }
    make_lines(&input[..n]);
}
