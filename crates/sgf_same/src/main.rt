// Whether two files hold the same record: says `same` where their writings are equal, else where these first differ; of a file that has no writing, why not.
#![tactic(auto)]

ghost use Rattle.std.specs.Prelude.{◌≤◌, length};

use std::env::{Env, FillError};
use std::fs::File;
use std::io::Read;
use std::os::fd::AsRawFd;
use tables::{Counts, Refusal};

// How long a writing is. Where there is none, that is said.
#[derive(Clone, Copy)]
enum Outcome {
    Bytes(usize),
    Said,
}

fn say_refused(name: &[u8], number: u32, place: usize) -> Outcome {
    io::write_all(1, name);
    io::write_all(1, b": ");
    let mut line = io::buffer();
    let n = tool::put_refused(&mut line, 0, number, place);
    io::write_all(1, tool::first(&line, n));
    io::write_all(1, b"\n");
    Outcome::Said
}

fn say_unread(name: &[u8]) -> Outcome {
    io::write_all(1, b"cannot read ");
    io::write_all(1, name);
    io::write_all(1, b"\n");
    Outcome::Said
}

fn write_record(
    name: &[u8],
    text: &[u8],
    counts: Counts,
    trees: &[u32],
    nodes: &[u32],
    properties: &[u32],
    values: &[u32],
    out: &mut [u8],
) -> Outcome {
    match serialize::write(
        text,
        text.len(),
        counts,
        trees,
        nodes,
        properties,
        values,
        out,
    ) {
        Ok(n) => Outcome::Bytes(n),
        Err(reason) => say_refused(name, u32::from(reason), 0),
    }
}

fn write_text(name: &[u8], text: &[u8], out: &mut [u8]) -> Outcome {
    let mut trees = tool::pair_rows();
    let mut nodes = tool::node_rows();
    let mut properties = tool::property_rows();
    let mut values = tool::pair_rows();
    match reader::read_strict(text, &mut trees, &mut nodes, &mut properties, &mut values) {
        Ok(counts) => write_record(
            name,
            text,
            counts,
            &trees,
            &nodes,
            &properties,
            &values,
            out,
        ),
        Err(Refusal { reason, place }) => say_refused(name, u32::from(reason), place),
    }
}

// The writing of an open file.
fn write_open(name: &[u8], file: &File, out: &mut [u8]) -> Outcome {
    let mut text = tool::text_room();
    let n = io::read_full(file.as_raw_fd(), &mut text);
    if 65536 < n {
        return say_refused(name, 1, 0);
    }
    write_text(name, &text[..n], out)
}

// A folder opens, and the first read of it fails.
fn write_file(rt: &HostRuntime, name: &[u8], out: &mut [u8]) -> Outcome {
    let Ok(path) = str::from_utf8(name) else {
        return say_unread(name);
    };
    let Ok(mut file) = File::open(rt, path) else {
        return say_unread(name);
    };
    if file.read(&mut out[..0]).is_err() {
        return say_unread(name);
    }
    write_open(name, &file, out)
}

fn wide(b: u8) -> u32 {
    b as u32
}

// The byte at a place of a writing of n bytes; 256 behind it.
fn byte_at(out: &[u8], n: usize, at: usize) -> u32 {
    if n <= at {
        return 256;
    }
    if out.len() <= at {
        return 256;
    }
    wide(out[at])
}

// Where two writings first differ; the first one's length where they do not before.
fn differ_at(left: &[u8], n: usize, right: &[u8], m: usize) -> usize {
    let mut at = 0;
    while at < n {
        if byte_at(left, n, at) != byte_at(right, m, at) {
            break;
        }
        at += 1;
    }
    at
}

fn say_compared(left: &[u8], n: usize, right: &[u8], m: usize) {
    let at = differ_at(left, n, right, m);
    if (at == n) & (n == m) {
        io::write_all(1, b"same\n");
        return;
    }
    io::write_all(1, b"differ at byte ");
    io::print_decimal(1, at as u64);
    io::write_all(1, b"\n");
}

// Both files are looked at before any answer, so that each that has no writing is named.
fn compare(
    rt: &HostRuntime,
    left_name: &[u8],
    right_name: &[u8],
    left: &mut [u8],
    right: &mut [u8],
) {
    let first = write_file(rt, left_name, left);
    let second = write_file(rt, right_name, right);
    let Outcome::Bytes(n) = first else {
        return;
    };
    let Outcome::Bytes(m) = second else {
        return;
    };
    say_compared(left, n, right, m);
}

// The argument's bytes at the start of a room, and how many; none where it is missing or has more than there is room for.
fn argument(rt: &HostRuntime, i: usize, room: &mut [u8]) -> usize
    ensures { result ≤ length room.new }
{
    match rt.arg(i, room) {
        Ok(n) => n,
        Err(_) => 0,
    }
}

fn has_argument(rt: &HostRuntime, i: usize) -> bool {
    let mut none = [0u8; 1];
    match rt.arg(i, &mut none) {
        Ok(_) => true,
        Err(FillError::TooLong) => true,
        Err(FillError::NotPresent) => false,
    }
}

// Are there two words behind the program's name, and no more.
fn has_two_words(rt: &HostRuntime) -> bool {
    has_argument(rt, 2) & !has_argument(rt, 3)
}

fn compare_arguments(rt: &HostRuntime) {
    let mut left_name = io::buffer();
    let mut right_name = io::buffer();
    let n = argument(rt, 1, &mut left_name);
    let m = argument(rt, 2, &mut right_name);
    let mut left = tool::out_room();
    let mut right = tool::out_room();
    compare(rt, &left_name[..n], &right_name[..m], &mut left, &mut right);
}

fn main(rt: HostRuntime) {
    if !has_two_words(&rt) {
        io::write_all(2, b"usage: sgf_same FILE FILE\n");
        return;
    }
    compare_arguments(&rt);
}
