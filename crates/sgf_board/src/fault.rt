// Why a node is refused with 23: the first act of a node on the way that is off the board, or sets a point that the node's setup has set before. Setup is looked at first, then moves, as they are played.
use crate::marked::played;
use crate::picture::letter;
use crate::rows::{node_cell, property_cell, tree_cell};
use crate::say_count;
use go_size::RootSize;
use tables::Counts;

// What is wrong with a node: nothing; a place off the board; a place that is set twice.
#[derive(Clone, Copy)]
enum BoardFault {
    Nothing,
    Off(usize),
    Twice(usize),
}

// The place is a point of the board.
fn on_board(columns: usize, rows: usize, place: usize) -> bool {
    (place / 52 < columns) & (place % 52 < rows)
}

// The first marked place that is off the board or was set before; the others are set now.
fn set_fault(
    marks: &[bool; 2704],
    seen: &mut [bool; 2704],
    columns: usize,
    rows: usize,
) -> BoardFault {
    for place in 0..2704 {
        if marks[place] {
            if !on_board(columns, rows, place) {
                return BoardFault::Off(place);
            }
            if seen[place] {
                return BoardFault::Twice(place);
            }
            seen[place] = true;
        }
    }
    BoardFault::Nothing
}

// Is it a setup property.
fn is_setup(identifier: &[u8]) -> bool {
    (parts_props::reads_as(identifier, b"AB") | parts_props::reads_as(identifier, b"AW"))
        | parts_props::reads_as(identifier, b"AE")
}

// What is wrong with the setup of a property.
fn setup_fault(
    text: &[u8],
    properties: &[u32],
    values: &[u32],
    property: usize,
    seen: &mut [bool; 2704],
    columns: usize,
    rows: usize,
) -> BoardFault {
    let identifier = parts_props::identifier_at(text, properties, property);
    if !is_setup(identifier) {
        return BoardFault::Nothing;
    }
    let first = property_cell(properties, property, 2);
    let count = property_cell(properties, property, 3);
    let marks = go::value::go_value(0, identifier, text, values, first, count).marks;
    set_fault(&marks, seen, columns, rows)
}

// What is wrong with the setup of the properties from one to another.
fn setups_fault(
    text: &[u8],
    properties: &[u32],
    values: &[u32],
    from: usize,
    to: usize,
    columns: usize,
    rows: usize,
) -> BoardFault {
    let mut seen = [false; 2704];
    for property in from..to {
        match setup_fault(text, properties, values, property, &mut seen, columns, rows) {
            BoardFault::Nothing => {}
            BoardFault::Off(place) => {
                return BoardFault::Off(place);
            }
            BoardFault::Twice(place) => {
                return BoardFault::Twice(place);
            }
        }
    }
    BoardFault::Nothing
}

// What is wrong with the moves of the properties from one to another.
fn moves_fault(
    text: &[u8],
    properties: &[u32],
    values: &[u32],
    from: usize,
    to: usize,
    columns: usize,
    rows: usize,
) -> BoardFault {
    for property in from..to {
        let place = played(text, properties, values, property, columns, rows);
        if place < 2704 {
            if !on_board(columns, rows, place) {
                return BoardFault::Off(place);
            }
        }
    }
    BoardFault::Nothing
}

// The letters of a place.
fn say_point(place: usize) {
    io::write_all(1, &[letter(place / 52), letter(place % 52)]);
}

// A node that is refused, its point, and why.
fn say_place(node: usize, place: usize, words: &[u8]) {
    say_count(b": node ", node as u64);
    io::write_all(1, b": point ");
    say_point(place);
    io::write_all(1, words);
}

// Says what is wrong; whether anything is.
fn say_one(fault: BoardFault, node: usize) -> bool {
    match fault {
        BoardFault::Nothing => false,
        BoardFault::Off(place) => {
            say_place(node, place, b" is off the board");
            true
        }
        BoardFault::Twice(place) => {
            say_place(node, place, b" is set twice");
            true
        }
    }
}

// Says what is wrong with a node; whether anything is.
fn say_node(
    text: &[u8],
    nodes: &[u32],
    properties: &[u32],
    values: &[u32],
    node: usize,
    columns: usize,
    rows: usize,
) -> bool {
    let from = node_cell(nodes, node, 3);
    let to = from + node_cell(nodes, node, 4);
    if say_one(
        setups_fault(text, properties, values, from, to, columns, rows),
        node,
    ) {
        return true;
    }
    say_one(
        moves_fault(text, properties, values, from, to, columns, rows),
        node,
    )
}

// The first refused node from a root down to node k, if there is one.
fn say_way(
    text: &[u8],
    nodes: &[u32],
    properties: &[u32],
    values: &[u32],
    root: usize,
    k: usize,
    columns: usize,
    rows: usize,
) {
    let mut node = root;
    // A while: node follows the nodes of the way.
    while node <= k {
        if say_node(text, nodes, properties, values, node, columns, rows) {
            return;
        }
        let next = board_path::next_on(nodes, node, k);
        if next <= node {
            return;
        }
        node = next;
    }
}

// The tree that has node k: the last whose root is not behind k.
fn tree_over(counts: Counts, trees: &[u32], k: usize) -> usize {
    (0..counts.trees)
        .rev()
        .find(|&tree| tree_cell(trees, tree, 0) <= k)
        .unwrap_or(0)
}

// Of a record that is refused with 23 at node k: the node on the way, its point, and why.
pub fn say_fault(
    text: &[u8],
    counts: Counts,
    trees: &[u32],
    nodes: &[u32],
    properties: &[u32],
    values: &[u32],
    k: usize,
) {
    let tree = tree_over(counts, trees, k);
    let root = tree_cell(trees, tree, 0);
    match fit_rule::size_at(text, trees, nodes, properties, values, tree) {
        RootSize::Absent => say_way(text, nodes, properties, values, root, k, 19, 19),
        RootSize::Sized(x, y) => say_way(text, nodes, properties, values, root, k, x, y),
        RootSize::Wrong => {}
    }
}
