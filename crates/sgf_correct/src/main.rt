// A record's text with all corrections of a feed in it, from two files; a refusal is one line.
#![tactic(auto)]

ghost use Rattle.std.specs.Prelude.{◌≤◌, length};

use std::env::{Env, FillError};
use std::fs::File;
use std::io::Read;
use std::os::fd::AsRawFd;
use tables::{Counts, Refusal};

// How long a file is. Where it cannot be read, that is said.
#[derive(Clone, Copy)]
enum Kept {
    Bytes(usize),
    Said,
}

fn say_refused(number: u32, place: usize) {
    let mut line = io::buffer();
    let n = tool::put_refused(&mut line, 0, number, place);
    io::write_all(1, tool::first(&line, n));
    io::write_all(1, b"\n");
}

fn say_unread(name: &[u8]) -> Kept {
    io::write_all(1, b"cannot read ");
    io::write_all(1, name);
    io::write_all(1, b"\n");
    Kept::Said
}

fn say_corrected(
    text: &mut [u8],
    used: usize,
    counts: Counts,
    trees: &[u32],
    nodes: &[u32],
    properties: &mut [u32],
    values: &mut [u32],
    feed: &[u8],
) {
    match feed_apply::apply(text, used, counts, trees, nodes, properties, values, feed) {
        Ok(n) => {
            io::write_all(1, tool::first(text, n));
        }
        Err(refused) => {
            say_refused(u32::from(refused.reason), refused.place);
        }
    }
}

fn correct(text: &mut [u8], used: usize, feed: &[u8]) {
    let mut trees = tool::pair_rows();
    let mut nodes = tool::node_rows();
    let mut properties = tool::property_rows();
    let mut values = tool::pair_rows();
    match reader::read_strict(
        tool::first(text, used),
        &mut trees,
        &mut nodes,
        &mut properties,
        &mut values,
    ) {
        Ok(counts) => {
            say_corrected(
                text,
                used,
                counts,
                &trees,
                &nodes,
                &mut properties,
                &mut values,
                feed,
            );
        }
        Err(refused) => {
            say_refused(u32::from(refused.reason), refused.place);
        }
    }
}

// An open file's bytes.
fn keep_open(file: &File, room: &mut [u8]) -> Kept {
    let n = io::read_full(file.as_raw_fd(), room);
    if 65536 < n {
        say_refused(1, 0);
        return Kept::Said;
    }
    Kept::Bytes(n)
}

// A folder opens, and the first read of it fails.
fn keep_file(rt: &HostRuntime, name: &[u8], room: &mut [u8]) -> Kept {
    let Ok(path) = str::from_utf8(name) else {
        return say_unread(name);
    };
    let Ok(mut file) = File::open(rt, path) else {
        return say_unread(name);
    };
    if file.read(&mut room[..0]).is_err() {
        return say_unread(name);
    }
    keep_open(&file, room)
}

fn correct_files(
    rt: &HostRuntime,
    text_name: &[u8],
    feed_name: &[u8],
    text: &mut [u8],
    feed: &mut [u8],
) {
    let Kept::Bytes(used) = keep_file(rt, text_name, text) else {
        return;
    };
    let Kept::Bytes(n) = keep_file(rt, feed_name, feed) else {
        return;
    };
    correct(text, used, tool::first(feed, n));
}

// The argument's bytes at the start of a room, and how many; none where it is missing or has more than there is room for.
fn argument(rt: &HostRuntime, i: usize, room: &mut [u8]) -> usize
    ensures { result ≤ length room.new }
{
    match rt.arg(i, room) {
        Ok(n) => n,
        Err(_) => 0,
    }
}

fn has_argument(rt: &HostRuntime, i: usize) -> bool {
    let mut none = [0u8; 1];
    match rt.arg(i, &mut none) {
        Ok(_) => true,
        Err(FillError::TooLong) => true,
        Err(FillError::NotPresent) => false,
    }
}

// Are there two words behind the program's name, and no more.
fn has_two_words(rt: &HostRuntime) -> bool {
    has_argument(rt, 2) & !has_argument(rt, 3)
}

fn correct_arguments(rt: &HostRuntime) {
    let mut text_name = io::buffer();
    let mut feed_name = io::buffer();
    let n = argument(rt, 1, &mut text_name);
    let m = argument(rt, 2, &mut feed_name);
    let mut text = tool::out_room();
    let mut feed = tool::out_room();
    correct_files(rt, &text_name[..n], &feed_name[..m], &mut text, &mut feed);
}

fn main(rt: HostRuntime) {
    if !has_two_words(&rt) {
        io::write_all(2, b"usage: sgf_correct FILE FEED\n");
        return;
    }
    correct_arguments(&rt);
}
