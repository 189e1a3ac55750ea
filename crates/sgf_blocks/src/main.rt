// The tokens of the text on standard input, one a line with its span; then `done`, or the refusal alone. The text is taken in blocks of 4,096 bytes, and no more of it is held. At most 1,048,576 bytes and 65,536 tokens.
#![tactic(auto)]

ghost use Rattle.std.specs.Prelude.{◌≡◌, replicate};

use blocks::BlocksState;

fn say_span(from: usize, to: usize) {
    let mut line = io::buffer();
    let n = tool::put_span(&mut line, 0, from, to);
    io::write_all(1, tool::first(&line, n));
}

fn say_refused(number: u32, place: usize) {
    let mut line = io::buffer();
    let n = tool::put_refused(&mut line, 0, number, place);
    io::write_all(1, tool::first(&line, n));
    io::write_all(1, b"\n");
}

fn say_kind(kind: u32) {
    let name = match kind {
        1 => b"start ".as_slice(),
        2 => b"end ".as_slice(),
        3 => b"node ".as_slice(),
        _ => b"property ".as_slice(),
    };
    io::write_all(1, name);
}

// The row of three numbers, where it is there.
fn say_row(row: &[u32]) {
    if row.len() < 3 {
        return;
    }
    say_kind(row[0]);
    say_span(lists::wide(row[1]), lists::wide(row[2]));
    io::write_all(1, b"\n");
}

// So many rows, as many as there are.
fn say_rows(rows: &[u32], tokens: usize) {
    for row in rows.chunks_exact(3).take(tokens) {
        say_row(row);
    }
}

// Rows for 65,536 tokens.
fn token_rows() -> [u32; 196608]
    ensures { result ≡ replicate 196608 0 }
{
    [0u32; 196608]
}

// Takes standard input, 4,096 bytes at a time; one block more than the longest text has suffices.
fn take_input(rows: &mut [u32]) -> BlocksState {
    let mut block = io::buffer();
    let mut state = BlocksState::default();
    for _ in 0..257 {
        let n = io::read_full(0, &mut block);
        if n == 0 {
            break;
        }
        state = blocks::block(state, &block[..n], rows).state;
    }
    state
}

fn say_answer(rows: &mut [u32]) {
    let state = take_input(rows);
    let answer = blocks::close(state, rows);
    if answer.number != 0 {
        say_refused(answer.number, answer.place);
        return;
    }
    say_rows(rows, answer.tokens);
    io::write_all(1, b"done\n");
}

fn main() {
    let mut rows = token_rows();
    say_answer(&mut rows);
}
