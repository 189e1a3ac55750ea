// The tokens of the text on standard input, one a line with its span, a property with its identifier; then how they end. The tokens are the token walker's. At most 65,536 bytes.
#![tactic(auto)]

ghost use Rattle.std.specs.Prelude.{◌≤◌, length};

use lexer::Step;
use text_utf8::Trimmed;

fn say_span(from: usize, to: usize) {
    let mut line = io::buffer();
    let n = tool::put_span(&mut line, 0, from, to);
    io::write_all(1, tool::first(&line, n));
}

fn say_single(name: &[u8], from: usize, to: usize) {
    io::write_all(1, name);
    say_span(from, to);
}

fn say_property(text: &[u8], from: usize, opens: usize, to: usize)
    requires { (from ≤ opens) × (opens ≤ length text.now) }
{
    say_single(b"property ", from, to);
    io::write_all(1, b" ");
    io::write_all(1, &text[from..opens]);
}

fn say_refused(number: u32, place: usize) {
    let mut line = io::buffer();
    let n = tool::put_refused(&mut line, 0, number, place);
    io::write_all(1, tool::first(&line, n));
}

// Says the next token and gives the place behind it; a fault and the end of the text leave the place as it is.
fn say_next(text: &[u8], at: usize) -> usize {
    let stepped = lexer_walker::token_at(text, at);
    let to = stepped.next.at;
    let token = stepped.token;
    match token {
        Step::Start(i) => {
            say_single(b"start ", i, to);
        }
        Step::End(i) => {
            say_single(b"end ", i, to);
        }
        Step::Node(i) => {
            say_single(b"node ", i, to);
        }
        Step::Property(i, k, _) => {
            say_property(text, i, k, to);
        }
        Step::Refused(f, i) => {
            say_refused(u32::from(f), i);
        }
        Step::Done => {
            io::write_all(1, b"done");
        }
    }
    io::write_all(1, b"\n");
    to
}

fn say_tokens(text: &[u8], first: usize) {
    let mut at = first;
    // A while: each token says where the next one begins.
    while at <= text.len() {
        let next = say_next(text, at);
        if next <= at {
            break;
        }
        at = next;
    }
}

fn say_text(text: &[u8]) {
    match text_utf8::trim(text) {
        Trimmed::NotUtf8(p) => {
            say_refused(2, p);
            io::write_all(1, b"\n");
        }
        Trimmed::Blank => {
            io::write_all(1, b"done\n");
        }
        Trimmed::Kept(first, last) => {
            say_tokens(&text[..last], first);
        }
    }
}

fn main() {
    let mut input = tool::text_room();
    let n = io::read_full(0, &mut input);
    if 65536 < n {
        say_refused(1, 0);
        io::write_all(1, b"\n");
        return;
    }
    say_text(&input[..n]);
}
