// Why the record on standard input is refused: `refused N at P`, the number and the place of the token to blame, and `fact F D`, the fact's number in the C header and the number in it; or `accepted`, and `counts`: trees, nodes, properties, values, and the place of the first token in no tree. With the word --lenient it is read leniently. At most 65,536 bytes.
#![tactic(auto)]

ghost use Rattle.std.specs.Prelude.{◌≤◌, length};

use c_why::SgfWhy;
use std::env::{Env, FillError};
use tables::Counts;

// Words and a number.
fn say(words: &[u8], n: usize) {
    io::write_all(1, words);
    io::print_decimal(1, n as u64);
}

fn wide(number: u32) -> usize {
    number as usize
}

fn say_refused(number: usize, place: usize, fact: usize, detail: usize) {
    say(b"refused ", number);
    say(b" at ", place);
    say(b"\nfact ", fact);
    say(b" ", detail);
    io::write_all(1, b"\n");
}

fn say_accepted(counts: Counts, place: usize) {
    say(b"accepted\ncounts ", counts.trees);
    say(b" ", counts.nodes);
    say(b" ", counts.properties);
    say(b" ", counts.values);
    say(b" ", place);
    io::write_all(1, b"\n");
}

fn say_why(why: SgfWhy) {
    if why.number == 0 {
        say_accepted(why.counts, why.place);
        return;
    }
    say_refused(wide(why.number), why.place, wide(why.fact), why.detail);
}

fn wide_byte(b: u8) -> u32 {
    b as u32
}

// The byte at a place; 256 behind the last.
fn byte_at(bytes: &[u8], at: usize) -> u32 {
    if bytes.len() <= at {
        return 256;
    }
    wide_byte(bytes[at])
}

fn is_word(given: &[u8], word: &[u8]) -> bool {
    let mut at = 0;
    while at < word.len() {
        if byte_at(given, at) != byte_at(word, at) {
            return false;
        }
        at += 1;
    }
    given.len() == word.len()
}

// The argument's bytes at the start of a room, and how many; none where it is missing or has more than there is room for.
fn argument(rt: &HostRuntime, i: usize, room: &mut [u8]) -> usize
    ensures { result ≤ length room.new }
{
    match rt.arg(i, room) {
        Ok(n) => n,
        Err(_) => 0,
    }
}

fn has_argument(rt: &HostRuntime, i: usize) -> bool {
    let mut none = [0u8; 1];
    match rt.arg(i, &mut none) {
        Ok(_) => true,
        Err(FillError::TooLong) => true,
        Err(FillError::NotPresent) => false,
    }
}

// Is there one word behind the program's name, and no more.
fn has_one_word(rt: &HostRuntime) -> bool {
    has_argument(rt, 1) & !has_argument(rt, 2)
}

// Is the program's one word --lenient.
fn is_lenient(rt: &HostRuntime) -> bool {
    if !has_one_word(rt) {
        return false;
    }
    let mut word = io::buffer();
    let n = argument(rt, 1, &mut word);
    is_word(&word[..n], b"--lenient")
}

fn main(rt: HostRuntime) {
    let mut input = tool::text_room();
    let n = io::read_full(0, &mut input);
    if 65536 < n {
        say_refused(1, 0, 1, n);
        return;
    }
    if is_lenient(&rt) {
        say_why(c_why::why_in_c(why::lenient(&input[..n])));
        return;
    }
    say_why(c_why::why_in_c(why::strict(&input[..n])));
}
