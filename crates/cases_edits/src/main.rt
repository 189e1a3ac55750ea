// Runs of edits: of the lines of standard input, `t TEXT` reads a text strictly, `e K BYTES` edits value K of it, `u` undoes the last accepted edit and `r` does it again. For each a line of standard output: the used text, a bar, the spans of its identifiers, a bar, those of its values; or the refusal.
#![tactic(auto)]

mod history; // history.rt: what is kept
mod line; // line.rt: the input
mod say; // say.rt: the output

use history::{bytes_of, keep, value_of};
use line::{line_end, load, number_at};
use say::{say_record, say_refused};
use tables::{Counts, Reason, Refusal};

// What is used of the lent memory; how many edits are done, and how many are known, those that were undone among them.
#[derive(Clone, Copy)]
pub struct Used {
    pub text: usize,
    pub counts: Counts,
    pub done: usize,
    pub known: usize,
}

fn used_of(text: usize, counts: Counts, done: usize, known: usize) -> Used {
    Used {
        text: text,
        counts: counts,
        done: done,
        known: known,
    }
}

fn nothing() -> Used {
    Used {
        text: 0,
        counts: Counts {
            trees: 0,
            nodes: 0,
            properties: 0,
            values: 0,
        },
        done: 0,
        known: 0,
    }
}

// A text read strictly.
fn on_text(
    line: &[u8],
    text: &mut [u8],
    trees: &mut [u32],
    nodes: &mut [u32],
    properties: &mut [u32],
    values: &mut [u32],
) -> Used {
    let n = load(line, 2, text);
    match reader::read_strict(&text[..n], trees, nodes, properties, values) {
        Err(Refusal { reason, place }) => {
            say_refused(u32::from(reason), place);
            nothing()
        }
        Ok(counts) => {
            let used = used_of(n, counts, 0, 0);
            say_record(text, used, properties, values);
            used
        }
    }
}

// An edit, as it was answered: accepted, so many are done and known; a refused one goes on with what was used before it.
fn on_answer(
    answer: Result<usize, Refusal<Reason>>,
    used: Used,
    done: usize,
    known: usize,
    text: &[u8],
    properties: &[u32],
    values: &[u32],
) -> Used {
    match answer {
        Err(Refusal { reason, place }) => {
            say_refused(u32::from(reason), place);
            used
        }
        Ok(n) => {
            let now = used_of(n, used.counts, done, known);
            say_record(text, now, properties, values);
            now
        }
    }
}

// An edit; where it is accepted, the bytes that the value had are kept.
fn on_edit(
    line: &[u8],
    used: Used,
    text: &mut [u8],
    trees: &[u32],
    nodes: &[u32],
    properties: &mut [u32],
    values: &mut [u32],
    log: &mut [u8],
    heads: &mut [usize],
) -> Used {
    let k = number_at(line, 2);
    let end = k.end;
    let number = k.value;
    if line.len() <= end {
        return used;
    }
    let done = used.done;
    if 15 < done {
        io::write_all(1, b"no slot");
        return used;
    }
    let mut old = [0u8; 64];
    let n = load(parts::value_at(text, values, number, 0), 0, &mut old);
    let from = end + 1;
    let answer = edit::edit(
        text,
        used.text,
        used.counts,
        trees,
        nodes,
        properties,
        values,
        number,
        &line[from..],
    );
    let now = on_answer(answer, used, done + 1, done + 1, text, properties, values);
    if done < now.done {
        keep(&old[..n], number, done, log, heads);
    }
    now
}

// The bytes of a slot put back; those that they replace are kept there.
fn on_slot(
    slot: usize,
    done: usize,
    used: Used,
    text: &mut [u8],
    trees: &[u32],
    nodes: &[u32],
    properties: &mut [u32],
    values: &mut [u32],
    log: &mut [u8],
    heads: &mut [usize],
) -> Used {
    let mut kept = [0u8; 64];
    let n = bytes_of(log, heads, slot, &mut kept);
    let k = value_of(heads, slot);
    let mut old = [0u8; 64];
    let m = load(parts::value_at(text, values, k, 0), 0, &mut old);
    keep(&old[..m], k, slot, log, heads);
    let answer = edit::edit(
        text,
        used.text,
        used.counts,
        trees,
        nodes,
        properties,
        values,
        k,
        &kept[..n],
    );
    on_answer(answer, used, done, used.known, text, properties, values)
}

// The last edit undone, or done again.
fn on_step(
    back: bool,
    used: Used,
    text: &mut [u8],
    trees: &[u32],
    nodes: &[u32],
    properties: &mut [u32],
    values: &mut [u32],
    log: &mut [u8],
    heads: &mut [usize],
) -> Used {
    let done = used.done;
    if back {
        if done == 0 {
            io::write_all(1, b"nothing to undo");
            return used;
        }
        return on_slot(
            done - 1,
            done - 1,
            used,
            text,
            trees,
            nodes,
            properties,
            values,
            log,
            heads,
        );
    }
    let known = used.known;
    if known <= done {
        io::write_all(1, b"nothing to redo");
        return used;
    }
    on_slot(
        done,
        done + 1,
        used,
        text,
        trees,
        nodes,
        properties,
        values,
        log,
        heads,
    )
}

fn on_line(
    line: &[u8],
    used: Used,
    text: &mut [u8],
    trees: &mut [u32],
    nodes: &mut [u32],
    properties: &mut [u32],
    values: &mut [u32],
    log: &mut [u8],
    heads: &mut [usize],
) -> Used {
    if line.len() < 1 {
        return used;
    }
    let what = line[0];
    if what == b't' {
        return on_text(line, text, trees, nodes, properties, values);
    }
    if what == b'e' {
        return on_edit(
            line, used, text, trees, nodes, properties, values, log, heads,
        );
    }
    on_step(
        what == b'u',
        used,
        text,
        trees,
        nodes,
        properties,
        values,
        log,
        heads,
    )
}

// A buffer of 64 bytes, so that 14 is met, and 16 slots.
fn run(s: &[u8]) {
    let mut text = [0u8; 64];
    let mut trees = [0u32; 8];
    let mut nodes = [0u32; 80];
    let mut properties = [0u32; 64];
    let mut values = [0u32; 32];
    let mut log = [0u8; 1024];
    let mut heads = [0usize; 32];
    let mut used = nothing();
    let mut at: usize = 0;
    // A while: at moves on by a line.
    while at < s.len() {
        let end = line_end(s, at);
        used = on_line(
            &s[at..end],
            used,
            &mut text,
            &mut trees,
            &mut nodes,
            &mut properties,
            &mut values,
            &mut log,
            &mut heads,
        );
        io::write_all(1, b"\n");
        at = end + 1;
    }
}

fn main() {
    let mut input = io::large_buffer();
    let n = io::read_full(0, &mut input);
    run(&input[..n]);
}
