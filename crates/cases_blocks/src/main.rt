// Texts in blocks. A line of standard input has the number of lent numbers, at most 64, and then, parted by spaces, calls: hex digits are a block, `-` is one of no bytes, `x` and two digits one of 4,096 such bytes, and `.` is the close. All lent numbers are 7 before. A line of standard output says what each call answers, and behind a bar the lent numbers then. A line that begins with `#` is said as it is.
#![tactic(auto)]

mod line; // line.rt: the input
mod say; // say.rt: the output

ghost use Rattle.std.specs.Prelude.{◌≤◌, length};

use blocks::BlocksState;
use line::{decode, fill, line_end, number_at, word_end};
use say::{say_blocked, say_closed, say_numbers};

// A block.
fn on_block(state: BlocksState, bytes: &[u8], rows: &mut [u32]) -> BlocksState {
    let taken = blocks::block(state, bytes, rows);
    say_blocked(taken.number);
    taken.state
}

// The close.
fn on_close(state: BlocksState, rows: &mut [u32]) -> BlocksState {
    let answer = blocks::close(state, rows);
    say_closed(answer.number, answer.place, answer.tokens);
    answer.state
}

// A word of a line.
fn on_word(word: &[u8], state: BlocksState, rows: &mut [u32]) -> BlocksState {
    let mut bytes = io::buffer();
    let n = match word.first() {
        None => return state,
        Some(b'.') => return on_close(state, rows),
        Some(b'x') => fill(word, &mut bytes),
        Some(_) => decode(word, &mut bytes),
    };
    on_block(state, &bytes[..n], rows)
}

// The words of a line from a place on.
fn on_words(line: &[u8], from: usize, rows: &mut [u32]) {
    let mut state = BlocksState::default();
    let mut at = from;
    // A while: at moves by the length of a word.
    while at < line.len() {
        let end = word_end(line, at);
        state = on_word(&line[at..end], state, rows);
        at = end + 1;
    }
}

// The words of a line with so many numbers lent, and the numbers then.
fn on_lent(line: &[u8], from: usize, lent: usize, rows: &mut [u32]) {
    if rows.len() < lent {
        return;
    }
    on_words(line, from, &mut rows[..lent]);
    say_numbers(&rows[..lent]);
}

fn on_line(line: &[u8]) {
    match line.first() {
        None => {}
        Some(b'#') => {
            io::write_all(1, line);
        }
        Some(_) => {
            let lent = number_at(line);
            let mut rows = [7u32; 64];
            on_lent(line, lent.end, lent.value, &mut rows);
        }
    }
}

fn run(s: &[u8]) {
    let mut at: usize = 0;
    // A while: at moves by the length of a line.
    while at < s.len() {
        let end = line_end(s, at);
        on_line(&s[at..end]);
        io::write_all(1, b"\n");
        at = end + 1;
    }
}

fn main() {
    let mut input = io::large_buffer();
    let n = io::read_full(0, &mut input);
    run(&input[..n]);
}
