// What is in a record: reads standard input and says its counts, its trees with their boards, their greatest depths, the moves of each main line and the sections of their properties, or why it is refused and where. Strictly; by the one word --lenient as far as it can be read.
#![tactic(auto)]

mod moves; // moves.rt: the moves of a tree
mod rows; // rows.rt: cells of the tables
mod sections; // sections.rt: properties counted by their sections
mod words; // words.rt: refusals in words

ghost use Rattle.std.specs.Prelude.{◌<◌, ◌≤◌, length};

use go_size::RootSize;
use std::env::{Env, FillError};
use tables::{Counts, LenientRefusal, Reason, Refusal};

pub fn say_count(words: &[u8], n: usize) {
    let mut line = io::buffer();
    let k = tool::put_count(&mut line, 0, words, n as u64);
    io::write_all(1, tool::first(&line, k));
}

// The size of a Go tree's board; 19 by 19 where its root does not say.
fn say_size(size: RootSize) {
    match size {
        RootSize::Absent => {
            io::write_all(1, b", 19 by 19");
        }
        RootSize::Sized(x, y) => {
            say_count(b", ", x);
            say_count(b" by ", y);
        }
        RootSize::Wrong => {
            io::write_all(1, b", board unclear");
        }
    }
}

// A Go tree: its nodes from `root` to `end`, its moves, those of its main line.
fn say_go_tree(
    rule: u32,
    text: &[u8],
    counts: Counts,
    nodes: &[u32],
    properties: &[u32],
    values: &[u32],
    root: usize,
    end: usize,
) {
    let from = rows::node_cell(nodes, root, 3);
    let mut to = counts.properties;
    if end < counts.nodes {
        to = rows::node_cell(nodes, end, 3);
    }
    say_count(
        b", moves ",
        moves::count_moves(rule, text, properties, values, from, to),
    );
    io::write_all(1, b"\n");
    moves::say_main_line(rule, text, nodes, properties, values, root, end);
}

// A tree's nodes from `root` to `end` and the greatest of their depths.
fn say_nodes(nodes: &[u32], root: usize, end: usize) {
    if root <= end {
        say_count(b", nodes ", end - root);
    }
    say_count(b", depth ", rows::greatest_depth(nodes, root, end));
}

// The node behind a tree's nodes.
fn tree_end(counts: Counts, trees: &[u32], tree: usize) -> usize
    requires { tree < counts.trees }
{
    if tree + 1 < counts.trees {
        return rows::tree_cell(trees, tree + 1, 0);
    }
    counts.nodes
}

fn say_tree(
    text: &[u8],
    counts: Counts,
    trees: &[u32],
    nodes: &[u32],
    properties: &[u32],
    values: &[u32],
    tree: usize,
)
    requires { tree < counts.trees }
{
    let root = rows::tree_cell(trees, tree, 0);
    let end = tree_end(counts, trees, tree);
    say_count(b"tree ", tree + 1);
    if rows::tree_cell(trees, tree, 1) == 0 {
        let size = fit_rule::size_at(text, trees, nodes, properties, values, tree);
        let rule = fit_rule::rule_at(text, trees, nodes, properties, values, tree);
        io::write_all(1, b": Go");
        say_size(size);
        say_nodes(nodes, root, end);
        say_go_tree(rule, text, counts, nodes, properties, values, root, end);
    } else {
        io::write_all(1, b": another game");
        say_nodes(nodes, root, end);
        io::write_all(1, b"\n");
    }
}

// How many properties of a tree are of each section.
fn say_tree_sections(
    text: &[u8],
    counts: Counts,
    trees: &[u32],
    nodes: &[u32],
    properties: &[u32],
    tree: usize,
)
    requires { tree < counts.trees }
{
    let root = rows::tree_cell(trees, tree, 0);
    let end = tree_end(counts, trees, tree);
    sections::say_sections(
        text,
        nodes,
        properties,
        root,
        end,
        counts.nodes,
        counts.properties,
    );
}

fn say_counts(counts: Counts) {
    say_count(b"trees ", counts.trees);
    say_count(b", nodes ", counts.nodes);
    say_count(b", properties ", counts.properties);
    say_count(b", values ", counts.values);
    io::write_all(1, b"\n");
}

fn say_record(
    text: &[u8],
    counts: Counts,
    trees: &[u32],
    nodes: &[u32],
    properties: &[u32],
    values: &[u32],
) {
    say_counts(counts);
    for tree in 0..counts.trees {
        say_tree(text, counts, trees, nodes, properties, values, tree);
        say_tree_sections(text, counts, trees, nodes, properties, tree);
    }
}

fn show(text: &[u8]) {
    let mut trees = tool::pair_rows();
    let mut nodes = tool::node_rows();
    let mut properties = tool::property_rows();
    let mut values = tool::pair_rows();
    match reader::read_strict(text, &mut trees, &mut nodes, &mut properties, &mut values) {
        Ok(counts) => {
            say_record(text, counts, &trees, &nodes, &properties, &values);
        }
        Err(Refusal { reason, place }) => {
            words::say_refused(text, reason, place);
        }
    }
}

// What a lenient reading has.
fn show_lenient(text: &[u8]) {
    let mut trees = tool::pair_rows();
    let mut nodes = tool::node_rows();
    let mut properties = tool::property_rows();
    let mut values = tool::pair_rows();
    match reader::read_lenient(text, &mut trees, &mut nodes, &mut properties, &mut values) {
        Ok(counts) => {
            say_record(text, counts, &trees, &nodes, &properties, &values);
        }
        Err(LenientRefusal::TextTooLong) => words::say_refused(text, Reason::TextTooLong, 0),
        Err(LenientRefusal::NotUtf8(place)) => words::say_refused(text, Reason::NotUtf8, place),
        Err(LenientRefusal::TooDeep) => words::say_refused(text, Reason::TooDeep, 0),
        Err(LenientRefusal::NoRoom) => words::say_refused(text, Reason::NoRoom, 0),
    }
}

// The argument's bytes at the start of a room, and how many; none where it is missing or has more than there is room for.
fn argument(rt: &HostRuntime, i: usize, room: &mut [u8]) -> usize
    ensures { result ≤ length room.new }
{
    match rt.arg(i, room) {
        Ok(n) => n,
        Err(_) => 0,
    }
}

fn has_argument(rt: &HostRuntime, i: usize) -> bool {
    let mut none = [0u8; 1];
    match rt.arg(i, &mut none) {
        Ok(_) => true,
        Err(FillError::TooLong) => true,
        Err(FillError::NotPresent) => false,
    }
}

// Is there one word behind the program's name, and no more.
fn has_one_word(rt: &HostRuntime) -> bool {
    has_argument(rt, 1) & !has_argument(rt, 2)
}

// Is the program's one word --lenient.
fn is_lenient(rt: &HostRuntime) -> bool {
    if !has_one_word(rt) {
        return false;
    }
    let mut word = io::buffer();
    let n = argument(rt, 1, &mut word);
    &word[..n] == b"--lenient".as_slice()
}

fn main(rt: HostRuntime) {
    let mut text = tool::text_room();
    let n = io::read_full(0, &mut text);
    if 65536 < n {
        words::say_refused(&text[..n], Reason::TextTooLong, 0);
        return;
    }
    if is_lenient(&rt) {
        show_lenient(&text[..n]);
        return;
    }
    show(&text[..n]);
}
