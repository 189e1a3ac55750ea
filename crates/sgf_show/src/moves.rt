// The moves of a Go tree: how many, and those of its main line.
ghost use Rattle.std.specs.Prelude.{◌≤◌};

use crate::rows::{node_cell, property_cell};
use go_points::Value;

// What a property plays: its colour's letter, and a point.
#[derive(Clone, Copy)]
enum Play {
    Nothing,
    Pass(u8),
    Point(u8, u8, u8),
}

// The one letter of an identifier that is a move's.
fn colour(identifier: &[u8]) -> u8 {
    if identifier.contains(&b'B') {
        return b'B';
    }
    b'W'
}

fn played_by(
    rule: u32,
    identifier: &[u8],
    text: &[u8],
    values: &[u32],
    first: usize,
    count: usize,
) -> Play {
    let value = go::value::go_value(rule, identifier, text, values, first, count).value;
    match value {
        Value::Pass => Play::Pass(colour(identifier)),
        Value::Move(x, y) => Play::Point(colour(identifier), x, y),
        _ => Play::Nothing,
    }
}

fn played(rule: u32, text: &[u8], properties: &[u32], values: &[u32], property: usize) -> Play {
    let start = property_cell(properties, property, 0);
    let end = property_cell(properties, property, 1);
    let first = property_cell(properties, property, 2);
    let count = property_cell(properties, property, 3);
    if text.len() < end {
        return Play::Nothing;
    }
    if end < start {
        return Play::Nothing;
    }
    played_by(rule, &text[start..end], text, values, first, count)
}

fn is_move(rule: u32, text: &[u8], properties: &[u32], values: &[u32], property: usize) -> bool {
    !matches!(
        played(rule, text, properties, values, property),
        Play::Nothing
    )
}

// How many properties from one to another are moves.
pub fn count_moves(
    rule: u32,
    text: &[u8],
    properties: &[u32],
    values: &[u32],
    from: usize,
    to: usize,
) -> usize {
    (from..to)
        .filter(|&property| is_move(rule, text, properties, values, property))
        .count()
}

fn say_letter(coordinate: u8) {
    if coordinate < 26 {
        io::write_all(1, &[b'a' + coordinate]);
    } else if coordinate < 52 {
        io::write_all(1, &[b'A' + (coordinate - 26)]);
    }
}

// What stands before a move that has `column` others before it on its line, and how many the next has: ten stand on a line.
fn say_gap(column: usize) -> usize
    ensures { result ≤ 10 }
{
    if column == 0 {
        io::write_all(1, b"  ");
        return 1;
    }
    if column < 10 {
        io::write_all(1, b", ");
        return column + 1;
    }
    io::write_all(1, b",\n  ");
    1
}

fn say_played(move_played: Play, column: usize) -> usize {
    match move_played {
        Play::Nothing => column,
        Play::Pass(letter) => {
            let next = say_gap(column);
            io::write_all(1, &[letter]);
            io::write_all(1, b" pass");
            next
        }
        Play::Point(letter, x, y) => {
            let next = say_gap(column);
            io::write_all(1, &[letter, b' ']);
            say_letter(x);
            say_letter(y);
            next
        }
    }
}

fn say_node(
    rule: u32,
    text: &[u8],
    nodes: &[u32],
    properties: &[u32],
    values: &[u32],
    node: usize,
    before: usize,
) -> usize {
    let mut column = before;
    let first = node_cell(nodes, node, 3);
    let behind = first + node_cell(nodes, node, 4);
    for property in first..behind {
        column = say_played(played(rule, text, properties, values, property), column);
    }
    column
}

// The moves along the first children, from the root on. A child's number is above its parent's.
pub fn say_main_line(
    rule: u32,
    text: &[u8],
    nodes: &[u32],
    properties: &[u32],
    values: &[u32],
    root: usize,
    end: usize,
) {
    let mut column = 0;
    let mut node = root;
    // A while: node goes down to its first child.
    while node < end {
        column = say_node(rule, text, nodes, properties, values, node, column);
        let child = node_cell(nodes, node, 1);
        if child <= node {
            break;
        }
        node = child;
    }
    if 0 < column {
        io::write_all(1, b"\n");
    }
}
