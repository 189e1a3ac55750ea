// Answers of the operations as the structs of the C header.
#![tactic(auto)]

ghost use Rattle.std.specs.Prelude.{◌≡◌};
ghost use Rattle.tables.specs.Lenient.{as_reading};
ghost use Rattle.go.specs.Value.{unmarked};
ghost use Rattle.ask.specs.Ask.{display_for};
ghost use Rattle.c_answers.specs.Structs.{reading_in_c, span_in_c, display_in_c, figures_in_c, go_in_c, writing_in_c, edit_in_c};

use go::value::GoValue;
use go_points::Value;
use tables::{Counts, LenientRefusal, Reason, Refusal};

// Number 0 and the counts of used rows; or the number of a refusal and its place, the counts 0. In both cases the settings that were ignored.
#[repr(C)]
#[derive(Clone, Copy)]
pub struct SgfReading {
    pub number: u32,
    pub ignored: u32,
    pub place: usize,
    pub counts: Counts,
}

// A reading, and the settings that were ignored.
pub fn reading_in_c(ignored: u32, reading: Result<Counts, Refusal<Reason>>) -> SgfReading
    ensures { result ≡ reading_in_c ignored reading }
{
    match reading {
        Ok(c) => SgfReading {
            number: 0,
            ignored: ignored,
            place: 0,
            counts: c,
        },
        Err(refused) => SgfReading {
            number: u32::from(refused.reason),
            ignored: ignored,
            place: refused.place,
            counts: Counts {
                trees: 0,
                nodes: 0,
                properties: 0,
                values: 0,
            },
        },
    }
}

// A lenient reading, and the settings that were ignored.
pub fn lenient_in_c(ignored: u32, lenient: Result<Counts, LenientRefusal>) -> SgfReading
    ensures { result ≡ reading_in_c ignored (as_reading lenient) }
{
    match lenient {
        Ok(c) => reading_in_c(ignored, Ok(c)),
        Err(refused) => match refused {
            LenientRefusal::TextTooLong => reading_in_c(
                ignored,
                Err(Refusal {
                    reason: Reason::TextTooLong,
                    place: 0,
                }),
            ),
            LenientRefusal::NotUtf8(place) => reading_in_c(
                ignored,
                Err(Refusal {
                    reason: Reason::NotUtf8,
                    place,
                }),
            ),
            LenientRefusal::TooDeep => reading_in_c(
                ignored,
                Err(Refusal {
                    reason: Reason::TooDeep,
                    place: 0,
                }),
            ),
            LenientRefusal::NoRoom => reading_in_c(
                ignored,
                Err(Refusal {
                    reason: Reason::NoRoom,
                    place: 0,
                }),
            ),
        },
    }
}

// Number 0 and the span of a value between its brackets; or the number of a refusal and an empty span.
#[repr(C)]
#[derive(Clone, Copy)]
pub struct SgfSpan {
    pub number: u32,
    pub reserved: u32,
    pub from: usize,
    pub to: usize,
}

// A value that is accessed.
pub fn span_in_c(accessed: Result<(usize, usize), Reason>) -> SgfSpan
    ensures { result ≡ span_in_c accessed }
{
    match accessed {
        Ok((a, e)) => SgfSpan {
            number: 0,
            reserved: 0,
            from: a,
            to: e,
        },
        Err(reason) => SgfSpan {
            number: u32::from(reason),
            reserved: 0,
            from: 0,
            to: 0,
        },
    }
}

// Number 0 and the number of bytes displayed; or the number of a refusal and 0.
#[repr(C)]
#[derive(Clone, Copy)]
pub struct SgfDisplay {
    pub number: u32,
    pub reserved: u32,
    pub length: usize,
}

// A display.
pub fn display_in_c(shown: Result<usize, Reason>) -> SgfDisplay
    ensures { result ≡ display_in_c shown }
{
    match shown {
        Ok(n) => SgfDisplay {
            number: 0,
            reserved: 0,
            length: n,
        },
        Err(reason) => SgfDisplay {
            number: u32::from(reason),
            reserved: 0,
            length: 0,
        },
    }
}

// A raw value displayed without a record.
pub fn value_in_c(displayed: Option<usize>) -> SgfDisplay
    ensures { result ≡ display_in_c (display_for displayed) }
{
    match displayed {
        Some(n) => SgfDisplay {
            number: 0,
            reserved: 0,
            length: n,
        },
        None => SgfDisplay {
            number: 14,
            reserved: 0,
            length: 0,
        },
    }
}

// A Go value: kind 0 other, 1 invalid, 2 a pass, 3 a move to x and y, 4 handicap stones, 5 the marked points; number 0 or a refusal's.
#[repr(C)]
#[derive(Drop)]
pub struct SgfGoValue {
    pub number: u32,
    pub kind: u32,
    pub x: u32,
    pub y: u32,
    pub handicap: u64,
    pub marks: [bool; 2704],
}

// The kinds of Go values.
const OTHER: u32 = 0;

const INVALID: u32 = 1;

const PASS: u32 = 2;

const MOVE: u32 = 3;

const HANDICAP: u32 = 4;

const POINTS: u32 = 5;

// The numbers of a Go value beside its marks.
#[derive(Clone, Copy)]
struct Figures {
    kind: u32,
    x: u32,
    y: u32,
    handicap: u64,
}

// A Go value without its marks, as the header's figures.
fn figures_of(value: Value) -> Figures
    ensures { result ≡ figures_in_c value }
{
    match value {
        Value::Other => Figures {
            kind: OTHER,
            x: 0,
            y: 0,
            handicap: 0,
        },
        Value::Invalid => Figures {
            kind: INVALID,
            x: 0,
            y: 0,
            handicap: 0,
        },
        Value::Pass => Figures {
            kind: PASS,
            x: 0,
            y: 0,
            handicap: 0,
        },
        Value::Move(a, b) => Figures {
            kind: MOVE,
            x: a as u32,
            y: b as u32,
            handicap: 0,
        },
        Value::Handicap(n) => Figures {
            kind: HANDICAP,
            x: 0,
            y: 0,
            handicap: n,
        },
        Value::Points => Figures {
            kind: POINTS,
            x: 0,
            y: 0,
            handicap: 0,
        },
    }
}

// A Go value, its number beside it.
pub fn go_in_c(number: u32, go: GoValue) -> SgfGoValue
    ensures { result ≡ go_in_c number go }
{
    let value = go.value;
    let marks = go.marks;
    let f = figures_of(value);
    SgfGoValue {
        number: number,
        kind: f.kind,
        x: f.x,
        y: f.y,
        handicap: f.handicap,
        marks: marks,
    }
}

// A value that is no set, number 0 beside it: no point marked.
pub fn unmarked_in_c(value: Value) -> SgfGoValue
    ensures { result ≡ go_in_c 0 (unmarked value) }
{
    let f = figures_of(value);
    SgfGoValue {
        number: 0,
        kind: f.kind,
        x: f.x,
        y: f.y,
        handicap: f.handicap,
        marks: [false; 2704],
    }
}

// Number 0 and the number of bytes written; or the number of a refusal and 0.
#[repr(C)]
#[derive(Clone, Copy)]
pub struct SgfWriting {
    pub number: u32,
    pub reserved: u32,
    pub length: usize,
}

// A writing.
pub fn writing_in_c(written: Result<usize, Reason>) -> SgfWriting
    ensures { result ≡ writing_in_c written }
{
    match written {
        Ok(n) => SgfWriting {
            number: 0,
            reserved: 0,
            length: n,
        },
        Err(reason) => SgfWriting {
            number: u32::from(reason),
            reserved: 0,
            length: 0,
        },
    }
}

// Number 0, the new used length and the counts; or the number of a refusal and its place, all else 0.
#[repr(C)]
#[derive(Clone, Copy)]
pub struct SgfEdit {
    pub number: u32,
    pub reserved: u32,
    pub place: usize,
    pub used: usize,
    pub counts: Counts,
}

// An edit of a record with these counts.
pub fn edit_in_c(c: Counts, edited: Result<usize, Refusal<Reason>>) -> SgfEdit
    ensures { result ≡ edit_in_c c edited }
{
    match edited {
        Ok(n) => SgfEdit {
            number: 0,
            reserved: 0,
            place: 0,
            used: n,
            counts: c,
        },
        Err(refused) => SgfEdit {
            number: u32::from(refused.reason),
            reserved: 0,
            place: refused.place,
            used: 0,
            counts: Counts {
                trees: 0,
                nodes: 0,
                properties: 0,
                values: 0,
            },
        },
    }
}
