// FF[4]'s property index: a line a property, identifiers of one letter first, each with its value kind, its type and its section.
#![tactic(auto)]

// Words, and spaces up to a width.
fn say(words: &[u8], width: usize) {
    io::write_all(1, words);
    for _ in words.len()..width {
        io::write_all(1, b" ");
    }
}

fn say_list(kind: u32) {
    match kind {
        9 => say(b"list of stone", 27),
        10 => say(b"list of point", 27),
        11 => say(b"elist of point", 27),
        12 => say(b"list of point:point", 27),
        13 => say(b"list of point:simpletext", 27),
        14 => say(b"simpletext:simpletext", 27),
        15 => say(b"number or number:number", 27),
        _ => say(b"none or number:simpletext", 27),
    }
}

fn say_kind(kind: u32) {
    match kind {
        1 => say(b"none", 27),
        2 => say(b"number", 27),
        3 => say(b"real", 27),
        4 => say(b"double", 27),
        5 => say(b"color", 27),
        6 => say(b"simpletext", 27),
        7 => say(b"text", 27),
        8 => say(b"move", 27),
        _ => say_list(kind),
    }
}

fn say_type(property_type: u32) {
    match property_type {
        1 => say(b"move", 11),
        2 => say(b"setup", 11),
        3 => say(b"root", 11),
        4 => say(b"game-info", 11),
        5 => say(b"inherit", 11),
        _ => say(b"-", 11),
    }
}

fn say_section(section: u32) {
    match section {
        1 => say(b"move\n", 0),
        2 => say(b"setup\n", 0),
        3 => say(b"node annotation\n", 0),
        4 => say(b"move annotation\n", 0),
        5 => say(b"markup\n", 0),
        6 => say(b"root\n", 0),
        7 => say(b"game info\n", 0),
        8 => say(b"timing\n", 0),
        9 => say(b"miscellaneous\n", 0),
        _ => say(b"Go\n", 0),
    }
}

// What is listed of an identifier, if it is.
fn say_row(identifier: &[u8]) {
    let entry = ff4_index::entry_of(identifier);
    if entry.section == 0 {
        return;
    }
    say(identifier, 4);
    say_kind(entry.kind);
    say_type(entry.property_type);
    say_section(entry.section);
}

// Identifiers of two letters, by their first one.
fn say_rows(a: u8) {
    for b in b'A'..=b'Z' {
        say_row(&[a, b]);
    }
}

fn main() {
    for one in b'A'..=b'Z' {
        say_row(&[one]);
    }
    for first in b'A'..=b'Z' {
        say_rows(first);
    }
}
