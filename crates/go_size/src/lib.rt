// The size of a board: SZ is one number, or two with one colon, each from 1 to 52, over the read value.
#![tactic(auto)]

ghost use Rattle.std.specs.Prelude.{◌≡◌, ◌==◌, ◌≤◌, position};
ghost use Rattle.values.specs.Read.{read_value};
ghost use Rattle.parts.specs.Rows.{values_at};
ghost use Rattle.parts_props.specs.Props.{named_at, properties_at};
ghost use Rattle.go_size.specs.Size.{side_of, pair_of, size_of};
ghost use Rattle.go_size.specs.Root.{SZ, size_of_values, size_in};
ghost use Rattle.go_size.specs.Locals.{NextSize};

use values::decimal::Number;

// What the properties of a root say: no SZ, one valid SZ, or an SZ that is repeated or invalid.
#[derive(Clone, Copy)]
pub enum RootSize {
    Absent,
    Sized(usize, usize),
    Wrong,
}

// The place of the first colon of the raw bytes, if there is one.
fn colon_place(s: &[u8]) -> Option<usize>
    ensures { result ≡ position (λ b. b == 0x3a) s.now }
{
    s.iter().position(|&b| b == b':')
}

// A side, or 0.
#[tactic(auto, unfolding(crate::specs::Size::side_of))]
fn side(s: &[u8]) -> usize
    ensures { result ≡ side_of (read_value s.now) }
{
    match values::decimal::decimal_within(s, 52) {
        Number::Plus(n) => n as usize,
        Number::Bad | Number::Minus(_) => 0,
    }
}

// Two sides, none of them 0.
#[tactic(auto, unfolding(crate::specs::Size::pair_of))]
fn board(x: usize, y: usize) -> Option<(usize, usize)>
    ensures { result ≡ pair_of x y }
{
    if x == 0 || y == 0 {
        return None;
    }
    Some((x, y))
}

// The size that a raw value says.
pub fn read_size(s: &[u8]) -> Option<(usize, usize)>
    ensures { result ≡ size_of (read_value s.now) }
{
    match colon_place(s) {
        Some(p) => board(side(&s[..p]), side(&s[p + 1..])),
        None => {
            let x = side(s);
            board(x, x)
        }
    }
}

// The size that the values of an SZ say: exactly one is wanted.
fn one_size(text: &[u8], values: &[u32], first: usize, count: usize) -> RootSize
    ensures { result ≡ size_of_values (values_at text.now values.now first count) }
{
    if count != 1 {
        return RootSize::Wrong;
    }
    let value = parts::value_at(text, values, first, 0);
    match read_size(value) {
        None => RootSize::Wrong,
        Some((x, y)) => RootSize::Sized(x, y),
    }
}

// Whether property p reads as SZ.
fn is_size(text: &[u8], properties: &[u32], p: usize) -> bool
    ensures { result ≡ named_at text.now properties.now SZ p }
{
    parts_props::is_named(text, properties, p, b"SZ")
}

// The first SZ of the properties from `from` up to `to`, or `to`.
fn next_size(text: &[u8], properties: &[u32], from: usize, to: usize) -> usize
    ensures { NextSize text.now properties.now from to result }
{
    for p in from..to {
        if is_size(text, properties, p) {
            return p;
        }
    }
    from.max(to)
}

// The size that the properties of `count` rows from `first` on say.
pub fn size_in(
    text: &[u8],
    properties: &[u32],
    values: &[u32],
    first: usize,
    count: usize,
) -> RootSize
    ensures { result ≡ size_in (properties_at text.now properties.now values.now first count) }
{
    let to = first + parts_props::row_count(properties, first, count);
    let p = next_size(text, properties, first, to);
    if to <= p {
        return RootSize::Absent;
    }
    let q = next_size(text, properties, p + 1, to);
    if q < to {
        return RootSize::Wrong;
    }
    let start = lists::wide(properties[p * tables::PROPERTY_STRIDE + tables::PROPERTY_FIRST]);
    let many = lists::wide(properties[p * tables::PROPERTY_STRIDE + tables::PROPERTY_COUNT]);
    one_size(text, values, start, many)
}
