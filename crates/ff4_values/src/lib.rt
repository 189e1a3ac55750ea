// Simple values of FF[4]'s properties: None, Double, Color and Number.
#![tactic(auto)]

ghost use Rattle.std.specs.Prelude.{◌≡◌};
ghost use Rattle.values.specs.Read.{read_value, read_identifier};
ghost use Rattle.parts.specs.Rows.{values_at};
ghost use Rattle.ff4_values.specs.Simple.{none_of, double_of, color_of, number_of_value, is_simple, simple_of, simple_by, kind_in, simple_value};
ghost use Rattle.go.specs.Value.{is_go};
ghost use Rattle.ff4_values.specs.Locals.{only_byte};

use values::decimal::Number;

// What the values of a property are: not of these kinds; not as their kind wants; none; a Double; a Color; a number by its sign and its size.
#[derive(Clone, Copy)]
pub enum Simple {
    Other,
    Invalid,
    Nothing,
    Normal,
    Emphasized,
    Black,
    White,
    Plus(u64),
    Minus(u64),
}

// The kinds that are read, by their numbers in the index.
const NONE: u32 = 1;

const NUMBER: u32 = 2;

const DOUBLE: u32 = 4;

const COLOR: u32 = 5;

// The section of Go's own properties.
const GO: u32 = 10;

// The byte that a value reads as; 256 where it reads as none, or as several.
fn only_byte(raw: &[u8]) -> u32
    ensures { result ≡ only_byte (read_value raw.now) }
{
    let Some((b, at)) = values::read::next_read(raw, 0) else {
        return 256;
    };
    let Some(_) = values::read::next_read(raw, at) else {
        return b as u32;
    };
    256
}

// Nothing stands in the value.
fn read_none(raw: &[u8]) -> Simple
    ensures { result ≡ none_of (read_value raw.now) }
{
    match values::read::next_read(raw, 0) {
        None => Simple::Nothing,
        Some(_) => Simple::Invalid,
    }
}

// `1` or `2`.
fn read_double(raw: &[u8]) -> Simple
    ensures { result ≡ double_of (read_value raw.now) }
{
    match only_byte(raw) {
        0x31 => Simple::Normal,
        0x32 => Simple::Emphasized,
        _ => Simple::Invalid,
    }
}

// `B` or `W`.
fn read_color(raw: &[u8]) -> Simple
    ensures { result ≡ color_of (read_value raw.now) }
{
    match only_byte(raw) {
        0x42 => Simple::Black,
        0x57 => Simple::White,
        _ => Simple::Invalid,
    }
}

// A decimal within 64 bits with sign.
fn read_number(raw: &[u8]) -> Simple
    ensures { result ≡ number_of_value (read_value raw.now) }
{
    match values::decimal::read_i64(raw) {
        Number::Bad => Simple::Invalid,
        Number::Plus(n) => Simple::Plus(n),
        Number::Minus(n) => Simple::Minus(n),
    }
}

// Whether values of this kind are read.
fn is_simple(kind: u32) -> bool
    ensures { result ≡ is_simple kind }
{
    matches!(kind, NONE | NUMBER | DOUBLE | COLOR)
}

// A raw value by its kind.
#[tactic(auto, unfolding(crate::specs::Simple::simple_of))]
fn simple_of(kind: u32, raw: &[u8]) -> Simple
    ensures { result ≡ simple_of kind (read_value raw.now) }
{
    match kind {
        NONE => read_none(raw),
        DOUBLE => read_double(raw),
        COLOR => read_color(raw),
        NUMBER => read_number(raw),
        _ => Simple::Other,
    }
}

// The values of a property by their kind: exactly one is wanted.
fn simple_by(kind: u32, text: &[u8], values: &[u32], first: usize, count: usize) -> Simple
    ensures { result ≡ simple_by kind (values_at text.now values.now first count) }
{
    if !is_simple(kind) {
        return Simple::Other;
    }
    if count != 1 {
        return Simple::Invalid;
    }
    let value = parts::value_at(text, values, first, 0);
    simple_of(kind, value)
}

// The kind of a property's values where the tree is read by this rule: 0 and 2 are Go's, and Go's own properties are unknown in another game.
#[tactic(auto, unfolding(crate::specs::Simple::kind_in))]
fn kind_in(rule: u32, identifier: &[u8]) -> u32
    ensures { result ≡ kind_in rule (read_identifier identifier.now) }
{
    let entry = ff4_index::entry_of(identifier);
    if entry.section == GO && !go::value::is_go(rule) {
        return 0;
    }
    entry.kind
}

// The simple value of a property by its parts: how its tree is read (0 and 2 for Go, any other for another game), its identifier, and the rows of its values.
pub fn simple_value(
    rule: u32,
    identifier: &[u8],
    text: &[u8],
    values: &[u32],
    first: usize,
    count: usize,
) -> Simple
    ensures { result ≡ simple_value rule (read_identifier identifier.now)
        (values_at text.now values.now first count) }
{
    simple_by(kind_in(rule, identifier), text, values, first, count)
}
