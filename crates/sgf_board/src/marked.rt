// The last move of a node.
use crate::picture::place_of;
use crate::rows::{node_cell, property_cell};
use go_points::Value;

// The place that a property plays on a board of so many columns and rows: 2,704 for a pass, 2,705 where it is no move.
pub fn played(
    text: &[u8],
    properties: &[u32],
    values: &[u32],
    property: usize,
    columns: usize,
    rows: usize,
) -> usize {
    let identifier = parts_props::identifier_at(text, properties, property);
    if !(parts_props::reads_as(identifier, b"B") | parts_props::reads_as(identifier, b"W")) {
        return 2705;
    }
    let first = property_cell(properties, property, 2);
    let count = property_cell(properties, property, 3);
    let value = go::value::go_value(2, identifier, text, values, first, count).value;
    match value {
        Value::Pass => 2704,
        Value::Move(x, y) => {
            if ((columns <= 19) & (rows <= 19)) & ((x == 19) & (y == 19)) {
                return 2704;
            }
            place_of(x as usize, y as usize)
        }
        _ => 2705,
    }
}

// The place of a node's last move; 2,704 or more where it has none, or that one is a pass.
pub fn last_move(
    text: &[u8],
    nodes: &[u32],
    properties: &[u32],
    values: &[u32],
    node: usize,
    columns: usize,
    rows: usize,
) -> usize {
    let mut last = 2705;
    let first = node_cell(nodes, node, 3);
    let behind = first + node_cell(nodes, node, 4);
    for property in first..behind {
        let place = played(text, properties, values, property, columns, rows);
        if place < 2705 {
            last = place;
        }
    }
    last
}
