// One text in hex on each line of standard input; for each a line of standard output: what trimming keeps, the tokens with their spans, identifiers and read values in hex, and how the tokens end.
#![tactic(auto)]

ghost use Rattle.std.specs.Prelude.{◌≤◌, length};

use lexer::{Cursor, Step};
use lexer_scan::ValueStep;
use text_utf8::Trimmed;

// The number that a hex digit stands for; 16 for any other byte.
fn digit_of(b: u8) -> u8
    ensures { result ≤ 16 }
{
    match b {
        b'0'..=b'9' => b - b'0',
        b'a'..=b'f' => b - b'a' + 10,
        _ => 16,
    }
}

// The byte that the two hex digits at a place spell; 256 where there are none.
fn byte_at(line: &[u8], at: usize) -> u32
    ensures { result ≤ 256 }
{
    if line.len() < 2 {
        return 256;
    }
    if line.len() - 2 < at {
        return 256;
    }
    let high = digit_of(line[at]);
    let low = digit_of(line[at + 1]);
    if high == 16 {
        return 256;
    }
    if low == 16 {
        return 256;
    }
    (high * 16 + low) as u32
}

// The bytes that a line of hex digits spells, as far as it does and there is room.
fn decode(line: &[u8], bytes: &mut [u8]) -> usize
    ensures { result ≤ length bytes.new }
{
    for n in 0..bytes.len() {
        let b = byte_at(line, n * 2);
        if b == 256 {
            return n;
        }
        bytes[n] = b as u8;
    }
    bytes.len()
}

fn say_span(from: usize, to: usize) {
    let mut line = io::buffer();
    let n = tool::put_span(&mut line, 0, from, to);
    io::write_all(1, tool::first(&line, n));
}

fn say_byte(b: u8) {
    io::print_hex(1, b as u64, 2);
}

fn say_bytes(bytes: &[u8]) {
    for &b in bytes {
        say_byte(b);
    }
}

// A read value: each unescaped backslash is dropped.
fn say_read(raw: &[u8]) {
    let mut escaped = false;
    for &b in raw {
        escaped = !escaped & (b == b'\\');
        if !escaped {
            say_byte(b);
        }
    }
}

// Says the value that opens at a place and gives the place behind it; where none opens, the place itself.
fn say_value(text: &[u8], at: usize) -> usize {
    let ValueStep::Value(from, end, next) = lexer_scan::next_value(text, at) else {
        return at;
    };
    io::write_all(1, b" [");
    say_read(&text[from..end]);
    io::write_all(1, b"]");
    next
}

fn say_values(text: &[u8], opens: usize) {
    let mut at = opens;
    // A while: each value says where the next one may open.
    while at <= text.len() {
        let next = say_value(text, at);
        if next <= at {
            break;
        }
        at = next;
    }
}

fn say_property(text: &[u8], from: usize, opens: usize, end: usize)
    requires { (from ≤ opens) × (opens ≤ length text.now) }
{
    io::write_all(1, b"property ");
    say_span(from, end);
    io::write_all(1, b" ");
    say_bytes(&text[from..opens]);
    say_values(text, opens);
}

fn say_refused(number: u32, place: usize) {
    let mut line = io::buffer();
    let n = tool::put_refused(&mut line, 0, number, place);
    io::write_all(1, tool::first(&line, n));
}

fn say_single(name: &[u8], from: usize, end: usize) {
    io::write_all(1, name);
    say_span(from, end);
}

// Says the next token and gives the place behind it; a fault and the end of the text leave the place as it is.
fn say_next(text: &[u8], at: usize) -> usize {
    io::write_all(1, b" ");
    let stepped = Cursor { at: at }.next(text);
    let end = stepped.next.at;
    let token = stepped.token;
    match token {
        Step::Start(i) => {
            say_single(b"start ", i, end);
        }
        Step::End(i) => {
            say_single(b"end ", i, end);
        }
        Step::Node(i) => {
            say_single(b"node ", i, end);
        }
        Step::Property(i, k, _) => {
            say_property(text, i, k, end);
        }
        Step::Refused(f, i) => {
            say_refused(u32::from(f), i);
        }
        Step::Done => {
            io::write_all(1, b"done");
        }
    }
    end
}

fn say_tokens(text: &[u8], first: usize) {
    let mut at = first;
    // A while: each token says where the next one begins.
    while at <= text.len() {
        let next = say_next(text, at);
        if next <= at {
            break;
        }
        at = next;
    }
}

fn say_trimmed(text: &[u8]) {
    match text_utf8::trim(text) {
        Trimmed::NotUtf8(p) => {
            say_refused(2, p);
        }
        Trimmed::Blank => {
            io::write_all(1, b"blank");
        }
        Trimmed::Kept(first, last) => {
            io::write_all(1, b"kept ");
            say_span(first, last);
            say_tokens(&text[..last], first);
        }
    }
}

fn say(line: &[u8]) {
    let mut bytes = io::buffer();
    let n = decode(line, &mut bytes);
    say_trimmed(&bytes[..n]);
    io::write_all(1, b"\n");
}

// The place of the first line feed from `at` on, or the end.
fn line_end(s: &[u8], at: usize) -> usize
    requires { at ≤ length s.now }
    ensures { (at ≤ result) × (result ≤ length s.now) }
{
    for i in at..s.len() {
        if s[i] == b'\n' {
            return i;
        }
    }
    s.len()
}

fn run(s: &[u8]) {
    let mut at = 0;
    // A while: at moves by the length of a line.
    while at < s.len() {
        let end = line_end(s, at);
        say(&s[at..end]);
        at = end + 1;
    }
}

fn main() {
    let mut input = io::large_buffer();
    let n = io::read_full(0, &mut input);
    run(&input[..n]);
}
