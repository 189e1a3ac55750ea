// How many properties of a tree are of each section of FF[4].
ghost use Rattle.std.specs.Prelude.{◌≤◌};

use crate::rows::{node_cell, property_cell};
use crate::say_count;

// The section of a property, 0 where FF[4] does not list it.
fn section_of(text: &[u8], properties: &[u32], property: usize) -> u32 {
    let start = property_cell(properties, property, 0);
    let end = property_cell(properties, property, 1);
    if text.len() < end {
        return 0;
    }
    if end < start {
        return 0;
    }
    ff4_index::entry_of(&text[start..end]).section
}

// How many properties from one to another are of this section.
fn count_section(text: &[u8], properties: &[u32], from: usize, to: usize, section: u32) -> usize {
    (from..to)
        .filter(|&property| section_of(text, properties, property) == section)
        .count()
}

// A section's words and its count, if it has any, behind what stands on the line; whether something stands there then.
fn say_section(words: &[u8], n: usize, begun: bool) -> bool {
    if n == 0 {
        return begun;
    }
    if begun {
        io::write_all(1, b", ");
    } else {
        io::write_all(1, b"  ");
    }
    say_count(words, n);
    true
}

// The counts of the properties from one to another, a line, if there are any.
fn say_counts(text: &[u8], properties: &[u32], from: usize, to: usize) {
    let a = say_section(
        b"root ",
        count_section(text, properties, from, to, 6),
        false,
    );
    let b = say_section(
        b"game info ",
        count_section(text, properties, from, to, 7),
        a,
    );
    let c = say_section(b"Go ", count_section(text, properties, from, to, 10), b);
    let d = say_section(b"setup ", count_section(text, properties, from, to, 2), c);
    let e = say_section(b"move ", count_section(text, properties, from, to, 1), d);
    let f = say_section(b"timing ", count_section(text, properties, from, to, 8), e);
    let g = say_section(
        b"move annotation ",
        count_section(text, properties, from, to, 4),
        f,
    );
    let h = say_section(
        b"node annotation ",
        count_section(text, properties, from, to, 3),
        g,
    );
    let i = say_section(b"markup ", count_section(text, properties, from, to, 5), h);
    let j = say_section(
        b"miscellaneous ",
        count_section(text, properties, from, to, 9),
        i,
    );
    let k = say_section(b"unknown ", count_section(text, properties, from, to, 0), j);
    if k {
        io::write_all(1, b"\n");
    }
}

// The same of the tree with the nodes from `root` to `end`, of so many nodes and properties.
pub fn say_sections(
    text: &[u8],
    nodes: &[u32],
    properties: &[u32],
    root: usize,
    end: usize,
    node_count: usize,
    property_count: usize,
) {
    let from = node_cell(nodes, root, 3);
    let mut to = property_count;
    if end < node_count {
        to = node_cell(nodes, end, 3);
    }
    say_counts(text, properties, from, to);
}
