// Standard input read strictly and written to standard output with a line feed; a refusal is one line.
#![tactic(auto)]

use tables::{Counts, Refusal};

fn say_refused(number: u32, place: usize) {
    let mut line = io::buffer();
    let n = tool::put_refused(&mut line, 0, number, place);
    io::write_all(1, tool::first(&line, n));
    io::write_all(1, b"\n");
}

fn say_written(
    text: &[u8],
    counts: Counts,
    trees: &[u32],
    nodes: &[u32],
    properties: &[u32],
    values: &[u32],
    out: &mut [u8],
) {
    match serialize::write(
        text,
        text.len(),
        counts,
        trees,
        nodes,
        properties,
        values,
        out,
    ) {
        Ok(n) => {
            io::write_all(1, &out[..n]);
            io::write_all(1, b"\n");
        }
        Err(reason) => {
            say_refused(u32::from(reason), 0);
        }
    }
}

fn say_text(text: &[u8]) {
    let mut trees = tool::pair_rows();
    let mut nodes = tool::node_rows();
    let mut properties = tool::property_rows();
    let mut values = tool::pair_rows();
    match reader::read_strict(text, &mut trees, &mut nodes, &mut properties, &mut values) {
        Ok(counts) => {
            let mut out = tool::out_room();
            say_written(text, counts, &trees, &nodes, &properties, &values, &mut out);
        }
        Err(Refusal { reason, place }) => {
            say_refused(u32::from(reason), place);
        }
    }
}

fn main() {
    let mut input = tool::text_room();
    let n = io::read_full(0, &mut input);
    if 65536 < n {
        say_refused(1, 0);
        return;
    }
    say_text(&input[..n]);
}
