// Entries of the property index and simple values as the structs of the C header.
#![tactic(auto)]

ghost use Rattle.std.specs.Prelude.{◌≡◌};
ghost use Rattle.c_simple.specs.InC.{entry_in_c, simple_struct, simple_in_c, simple_answer_in_c};

use ff4_index::Entry;
use ff4_values::Simple;
use tables::Reason;

// What FF[4] lists of a property; all 0 where it does not list it.
#[repr(C)]
#[derive(Clone, Copy)]
pub struct SgfEntry {
    pub kind: u32,
    pub property_type: u32,
    pub section: u32,
    pub reserved: u32,
}

// An entry of the index.
pub fn entry_in_c(entry: Entry) -> SgfEntry
    ensures { result ≡ entry_in_c entry }
{
    SgfEntry {
        kind: entry.kind,
        property_type: entry.property_type,
        section: entry.section,
        reserved: 0,
    }
}

// A simple value: kind 0 other, 1 invalid, 2 none, 3 a Double of size 1 or 2, 4 a Color, 1 black and 2 white, 5 a Number by its sign and its size; number 0 or a refusal's.
#[repr(C)]
#[derive(Clone, Copy)]
pub struct SgfSimple {
    pub number: u32,
    pub kind: u32,
    pub negative: u32,
    pub reserved: u32,
    pub size: u64,
}

// The kinds of simple values.
const OTHER: u32 = 0;

const INVALID: u32 = 1;

const NONE: u32 = 2;

const DOUBLE: u32 = 3;

const COLOR: u32 = 4;

const NUMBER: u32 = 5;

// A simple value that is given.
fn struct_of(kind: u32, negative: u32, size: u64) -> SgfSimple
    ensures { result ≡ simple_struct kind negative size }
{
    SgfSimple {
        number: 0,
        kind: kind,
        negative: negative,
        reserved: 0,
        size: size,
    }
}

// A simple value.
pub fn simple_in_c(simple: Simple) -> SgfSimple
    ensures { result ≡ simple_in_c simple }
{
    match simple {
        Simple::Other => struct_of(OTHER, 0, 0),
        Simple::Invalid => struct_of(INVALID, 0, 0),
        Simple::Nothing => struct_of(NONE, 0, 0),
        Simple::Normal => struct_of(DOUBLE, 0, 1),
        Simple::Emphasized => struct_of(DOUBLE, 0, 2),
        Simple::Black => struct_of(COLOR, 0, 1),
        Simple::White => struct_of(COLOR, 0, 2),
        Simple::Plus(n) => struct_of(NUMBER, 0, n),
        Simple::Minus(n) => struct_of(NUMBER, 1, n),
    }
}

// A simple value, or the number of a refusal and all else 0.
pub fn simple_answer_in_c(answer: Result<Simple, Reason>) -> SgfSimple
    ensures { result ≡ simple_answer_in_c answer }
{
    match answer {
        Ok(simple) => simple_in_c(simple),
        Err(reason) => SgfSimple {
            number: u32::from(reason),
            kind: OTHER,
            negative: 0,
            reserved: 0,
            size: 0,
        },
    }
}
