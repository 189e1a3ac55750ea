// The values of the record on standard input, one a line: `K IDENTIFIER[BYTES]`, where K counts from 0 in the order of the text, as a feed of corrections does. A refusal is one line. At most 65,536 bytes.
#![tactic(auto)]

ghost use Rattle.std.specs.Prelude.{◌<◌, ◌≤◌};

use tables::{Counts, Refusal};

fn say_refused(number: u32, place: usize) {
    let mut line = io::buffer();
    let n = tool::put_refused(&mut line, 0, number, place);
    io::write_all(1, tool::first(&line, n));
    io::write_all(1, b"\n");
}

fn say_value(k: usize, identifier: &[u8], bytes: &[u8]) {
    io::print_decimal(1, k as u64);
    io::write_all(1, b" ");
    io::write_all(1, identifier);
    io::write_all(1, b"[");
    io::write_all(1, bytes);
    io::write_all(1, b"]\n");
}

fn wide(cell: u32) -> usize
    ensures { result ≤ 4294967295 }
{
    cell as usize
}

// A cell of a property's row; 0 where there is no such row.
fn property_cell(properties: &[u32], p: usize, column: usize) -> usize
    requires { column < 4 }
    ensures { result ≤ 4294967295 }
{
    if p < properties.len() / tables::PROPERTY_STRIDE {
        return wide(properties[p * tables::PROPERTY_STRIDE + column]);
    }
    0
}

fn say_property(text: &[u8], properties: &[u32], values: &[u32], p: usize) {
    let first = property_cell(properties, p, 2);
    let count = property_cell(properties, p, 3);
    for i in 0..count {
        say_value(
            first + i,
            parts_props::identifier_at(text, properties, p),
            parts::value_at(text, values, first, i),
        );
    }
}

fn say_values(text: &[u8], counts: Counts, properties: &[u32], values: &[u32]) {
    for p in 0..counts.properties {
        say_property(text, properties, values, p);
    }
}

fn say_text(text: &[u8]) {
    let mut trees = tool::pair_rows();
    let mut nodes = tool::node_rows();
    let mut properties = tool::property_rows();
    let mut values = tool::pair_rows();
    match reader::read_strict(text, &mut trees, &mut nodes, &mut properties, &mut values) {
        Ok(counts) => {
            say_values(text, counts, &properties, &values);
        }
        Err(Refusal { reason, place }) => {
            say_refused(u32::from(reason), place);
        }
    }
}

fn main() {
    let mut input = tool::text_room();
    let n = io::read_full(0, &mut input);
    if 65536 < n {
        say_refused(1, 0);
        return;
    }
    say_text(&input[..n]);
}
