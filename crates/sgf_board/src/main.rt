// The board at a node: reads a record on standard input and prints the position at the node that the one word names, counted from 0, or without a word at the last node of the first tree's main line; then how many stones of each colour were put on and taken off. A refusal is one line; of 23 it names the node and the point.
#![tactic(auto)]

mod fault; // fault.rt: why a node is refused
mod marked; // marked.rt: the last move of a node
mod picture; // picture.rt: a board in letters
mod rows; // rows.rt: cells of the tables

ghost use Rattle.std.specs.Prelude.{◌≤◌, length};

use board::SgfBoard;
use std::env::{Env, FillError};
use tables::{Counts, Refusal};

// Words and a number.
pub fn say_count(words: &[u8], n: u64) {
    let mut line = io::buffer();
    let k = tool::put_count(&mut line, 0, words, n);
    io::write_all(1, tool::first(&line, k));
}

// `refused N at P`
fn say_refused(number: u32, place: usize) {
    let mut line = io::buffer();
    let n = tool::put_refused(&mut line, 0, number, place);
    io::write_all(1, tool::first(&line, n));
}

// The sums of a colour, a line.
fn say_sums(words: &[u8], on: u64, off: u64) {
    io::write_all(1, words);
    say_count(b": put on ", on);
    say_count(b", taken off ", off);
    io::write_all(1, b"\n");
}

// A board at a node, with a mark at a place.
fn say_board(board: SgfBoard, node: usize, mark: usize) {
    let columns = lists::wide(board.columns);
    let rows = lists::wide(board.rows);
    let black = board.black;
    let white = board.white;
    let stones = board.stones;
    say_count(b"node ", node as u64);
    say_count(b", ", columns as u64);
    say_count(b" columns, ", rows as u64);
    io::write_all(1, b" rows\n");
    picture::say_picture(&stones, columns, rows, mark);
    say_sums(b"black", black.on, black.off);
    say_sums(b"white", white.on, white.off);
}

// Why there is no board at a node, behind its number.
fn say_why(
    text: &[u8],
    counts: Counts,
    trees: &[u32],
    nodes: &[u32],
    properties: &[u32],
    values: &[u32],
    node: usize,
    number: u32,
) {
    if number == 23 {
        fault::say_fault(text, counts, trees, nodes, properties, values, node);
        return;
    }
    if number == 22 {
        io::write_all(1, b": SZ is repeated or invalid");
        return;
    }
    if counts.nodes <= node {
        io::write_all(1, b": no such node");
        say_count(b", there are ", counts.nodes as u64);
        return;
    }
    say_count(b": node ", node as u64);
    io::write_all(1, b" is not of a Go tree");
}

// The board at a node, or why there is none.
fn show_node(
    text: &[u8],
    counts: Counts,
    trees: &[u32],
    nodes: &[u32],
    properties: &[u32],
    values: &[u32],
    node: usize,
) {
    let shown = board::board(
        text,
        text.len(),
        counts,
        trees,
        nodes,
        properties,
        values,
        node,
    );
    let number = shown.number;
    if number != 0 {
        say_refused(number, 0);
        say_why(text, counts, trees, nodes, properties, values, node, number);
        io::write_all(1, b"\n");
        return;
    }
    let mark = marked::last_move(
        text,
        nodes,
        properties,
        values,
        node,
        lists::wide(shown.columns),
        lists::wide(shown.rows),
    );
    say_board(shown, node, mark);
}

// The last node of the first tree's main line. A child's number is above its parent's.
fn last_node(counts: Counts, trees: &[u32], nodes: &[u32]) -> usize {
    let mut node = rows::tree_cell(trees, 0, 0);
    // A loop: node follows the first children.
    loop {
        let child = rows::node_cell(nodes, node, 1);
        if child <= node {
            return node;
        }
        if counts.nodes <= child {
            return node;
        }
        node = child;
    }
}

// The number so far, with a digit behind it; with anything else, or where it is above every node's, one million.
fn number_behind(n: usize, b: u8) -> usize {
    if !b.is_ascii_digit() || 99999 < n {
        return 1000000;
    }
    n * 10 + ((b - b'0') as usize)
}

// The number that a word is; one million where it is none or above every node's.
fn number_of(word: &[u8]) -> usize {
    if word.is_empty() {
        return 1000000;
    }
    word.iter().fold(0, |n, &b| number_behind(n, b))
}

// The argument's bytes at the start of a room, and how many; none where it is missing or has more than there is room for.
fn argument(rt: &HostRuntime, i: usize, room: &mut [u8]) -> usize
    ensures { result ≤ length room.new }
{
    match rt.arg(i, room) {
        Ok(n) => n,
        Err(_) => 0,
    }
}

fn has_argument(rt: &HostRuntime, i: usize) -> bool {
    let mut none = [0u8; 1];
    match rt.arg(i, &mut none) {
        Ok(_) => true,
        Err(FillError::TooLong) => true,
        Err(FillError::NotPresent) => false,
    }
}

// Is there one word behind the program's name, and no more.
fn has_one_word(rt: &HostRuntime) -> bool {
    has_argument(rt, 1) & !has_argument(rt, 2)
}

// The node that the program's one word names; without a word the last one.
fn asked_node(rt: &HostRuntime, counts: Counts, trees: &[u32], nodes: &[u32]) -> usize {
    if !has_one_word(rt) {
        return last_node(counts, trees, nodes);
    }
    let mut word = io::buffer();
    let n = argument(rt, 1, &mut word);
    number_of(&word[..n])
}

// The board of a text, or why there is none.
fn show(rt: &HostRuntime, text: &[u8]) {
    let mut trees = tool::pair_rows();
    let mut nodes = tool::node_rows();
    let mut properties = tool::property_rows();
    let mut values = tool::pair_rows();
    match reader::read_strict(text, &mut trees, &mut nodes, &mut properties, &mut values) {
        Ok(counts) => {
            let node = asked_node(rt, counts, &trees, &nodes);
            show_node(text, counts, &trees, &nodes, &properties, &values, node);
        }
        Err(Refusal { reason, place }) => {
            say_refused(u32::from(reason), place);
            io::write_all(1, b"\n");
        }
    }
}

fn main(rt: HostRuntime) {
    let mut text = tool::text_room();
    let n = io::read_full(0, &mut text);
    if 65536 < n {
        io::write_all(1, b"refused 1 at 0\n");
        return;
    }
    show(&rt, &text[..n]);
}
