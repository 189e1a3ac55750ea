// The output.
ghost use Rattle.std.specs.Prelude.{◌≤◌};

use crate::Used;

pub fn say_refused(number: u32, place: usize) {
    let mut line = io::buffer();
    let n = tool::put_refused(&mut line, 0, number, place);
    io::write_all(1, tool::first(&line, n));
}

fn say_span(from: u32, to: u32) {
    let mut line = io::buffer();
    let n = tool::put_span(&mut line, 0, from as usize, to as usize);
    io::write_all(1, b" ");
    io::write_all(1, tool::first(&line, n));
}

// The spans that the first two numbers of each row are.
fn say_rows(rows: &[u32], stride: usize)
    requires { 2 ≤ stride }
{
    for row in rows.chunks_exact(stride) {
        say_span(row[0], row[1]);
    }
}

// The used text and the spans of the used rows.
pub fn say_record(text: &[u8], used: Used, properties: &[u32], values: &[u32]) {
    let bytes = used.text;
    let p = used.counts.properties;
    let v = used.counts.values;
    if text.len() < bytes {
        return;
    }
    if properties.len() / tables::PROPERTY_STRIDE < p {
        return;
    }
    if values.len() / tables::VALUE_STRIDE < v {
        return;
    }
    let named = p * tables::PROPERTY_STRIDE;
    let valued = v * tables::VALUE_STRIDE;
    io::write_all(1, &text[..bytes]);
    io::write_all(1, b" |");
    say_rows(&properties[..named], tables::PROPERTY_STRIDE);
    io::write_all(1, b" |");
    say_rows(&values[..valued], tables::VALUE_STRIDE);
}
