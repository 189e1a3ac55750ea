// Values as they are written.
#![tactic(auto)]

ghost use Rattle.std.specs.Prelude.{◌≡◌, true, false, [], ◌∷◌, ℕ, ◌+◌, ◌<◌, ◌≤◌, ◌/◌, ◌%◌, length, get_or, drop};
ghost use Rattle.lists.specs.Pick.{pick};
ghost use Rattle.values.specs.Read.{read_identifier};
ghost use Rattle.store_bytes.specs.LocalsWrote.{Wrote};
ghost use Rattle.go_points.specs.Area.{letter};
ghost use Rattle.go.specs.Normal.{point_text, points_from, normal};
ghost use Rattle.parts.specs.Rows.{values_at};
ghost use Rattle.go_shape.specs.declared.Shape.TheVariants.{ManyPoints};
ghost use Rattle.serialize_values.specs.LocalsForm.{form_by, raws_text};

use go_points::Value;
use go_shape::Shape;
use store_bytes::{put_byte, put_bytes};

// A value in its brackets.
fn put_box(out: &mut [u8], at: usize, value: &[u8]) -> usize
    ensures { Wrote (raws_text (value.now ∷ [])) out.old at out.new result }
{
    let from = put_byte(out, at, b'[');
    let to = put_bytes(out, from, value);
    put_byte(out, to, b']')
}

// Raw values: `count` rows from `first` on.
fn put_raw(
    out: &mut [u8],
    at: usize,
    text: &[u8],
    values: &[u32],
    first: usize,
    count: usize,
) -> usize
    ensures { Wrote (raws_text (values_at text.now values.now first count)) out.old at out.new result }
{
    let mut to = at;
    for i in 0..count {
        to = put_box(out, to, parts::value_at(text, values, first, i));
    }
    to
}

// A value of two bytes in its brackets, at once where there is room.
fn put_pair(out: &mut [u8], at: usize, value: &[u8]) -> usize
    requires { length value.now ≡ 2 }
    ensures { Wrote (raws_text (value.now ∷ [])) out.old at out.new result }
{
    if out.len() <= at {
        return put_box(out, at, value);
    }
    if out.len() - at < 4 {
        return put_box(out, at, value);
    }
    out[at] = b'[';
    out[at + 1] = value[0];
    out[at + 2] = value[1];
    out[at + 3] = b']';
    at + 4
}

// Whether a property has one value, two letters, which as a move or a set is written as it is raw under every rule.
fn is_plain(shape: Shape, count: usize, value: &[u8]) -> bool
    ensures { result ≡ true → (count ≡ 1) × (length value.now ≡ 2)
        × ((rule : ℕ) → value.now ∷ [] ≡ form_by rule shape (value.now ∷ [])) }
{
    if count != 1 || value.len() != 2 {
        return false;
    }
    if 51 < go_points::letter_of(value[0]) {
        return false;
    }
    if 51 < go_points::letter_of(value[1]) {
        return false;
    }
    match shape {
        Shape::OneMove => !((value[0] == b't') & (value[1] == b't')),
        Shape::ManyPoints => true,
        _ => false,
    }
}

// The letter of a coordinate.
fn letter_at(n: u8) -> u8
    requires { n < 52 }
    ensures { result ≡ letter n }
{
    if n < 26 {
        return b'a' + n;
    }
    b'A' + (n - 26)
}

// A point.
fn put_point(out: &mut [u8], at: usize, x: u8, y: u8) -> usize
    requires { (x < 52) × (y < 52) }
    ensures { Wrote (raws_text ((letter x ∷ letter y ∷ []) ∷ [])) out.old at out.new result }
{
    let from = put_byte(out, at, b'[');
    let next = put_byte(out, from, letter_at(x));
    let to = put_byte(out, next, letter_at(y));
    put_byte(out, to, b']')
}

// The point of place i, where it is marked.
fn put_marked(out: &mut [u8], at: usize, mark: bool, i: usize) -> usize
    requires { i < 2704 }
    ensures { Wrote (raws_text (pick mark (point_text i ∷ []) [])) out.old at out.new result }
{
    if mark {
        return put_point(out, at, (i / 52) as u8, (i % 52) as u8);
    }
    at
}

// Whether one of 64 places from i on is marked: no early way out, so that the compiler takes many at once.
fn any_marked(marks: &[bool; 2704], i: usize) -> bool
    requires { (i + 64 ≤ 2704) × (length marks.now ≡ 2704) }
    ensures { result ≡ false → (k : ℕ) → k < 64 → get_or marks.now (i + k) false ≡ false }
{
    let mut any = false;
    for &mark in &marks[i..i + 64] {
        any |= mark;
    }
    any
}

// Past places from i on that are not marked.
fn past_unmarked(marks: &[bool; 2704], i: usize) -> usize
    requires { (i < 2704) × (length marks.now ≡ 2704) }
    ensures { (i ≤ result) × (result < 2704) × (points_from i (drop i marks.now) ≡ points_from result (drop result marks.now)) }
{
    let mut at = i;
    // A while: it steps by 64 and ends at the first step with a mark.
    while at + 64 < 2704 {
        if any_marked(marks, at) {
            return at;
        }
        at += 64;
    }
    at
}

// The marked points in order.
fn put_points(out: &mut [u8], at: usize, marks: &[bool; 2704]) -> usize
    requires { length marks.now ≡ 2704 }
    ensures { Wrote (raws_text (points_from 0 marks.now)) out.old at out.new result }
{
    let mut to = at;
    let mut i: usize = 0;
    // A while: i jumps over places that are not marked.
    while i < 2704 {
        let n = past_unmarked(marks, i);
        to = put_marked(out, to, marks[n], n);
        i = n + 1;
    }
    to
}

// A set: its points, or the raw values of what is none.
fn put_set(
    out: &mut [u8],
    at: usize,
    text: &[u8],
    values: &[u32],
    first: usize,
    count: usize,
) -> usize
    ensures { Wrote (raws_text (form_by 0 ManyPoints (values_at text.now values.now first count)))
        out.old at out.new result }
{
    let set = go::set::read_points(text, values, first, count);
    let value = set.value;
    let Value::Points = value else {
        return put_raw(out, at, text, values, first, count);
    };
    // Stays: moved out, since what is only borrowed is dropped here, by one array more on the stack of `sgf_write`.
    let marks = set.marks;
    put_points(out, at, &marks)
}

// A move under a rule or a number of handicap stones, or the raw values of what is neither.
fn put_one(
    out: &mut [u8],
    at: usize,
    rule: u32,
    shape: Shape,
    text: &[u8],
    values: &[u32],
    first: usize,
    count: usize,
) -> usize
    requires { shape ≡ ManyPoints → ⊥ }
    ensures { Wrote (raws_text (form_by rule shape (values_at text.now values.now first count)))
        out.old at out.new result }
{
    match go::value::value_by(rule, shape, text, values, first, count) {
        Value::Pass => put_box(out, at, &text[..0]),
        Value::Move(x, y) => put_point(out, at, x, y),
        Value::Handicap(n) => {
            let from = put_byte(out, at, b'[');
            let to = values::spell::put_decimal(out, from, n);
            put_byte(out, to, b']')
        }
        _ => put_raw(out, at, text, values, first, count),
    }
}

// The values of a property: the rule of its tree, its raw identifier, and the rows of its values.
pub fn put_values(
    out: &mut [u8],
    at: usize,
    rule: u32,
    identifier: &[u8],
    text: &[u8],
    values: &[u32],
    first: usize,
    count: usize,
) -> usize
    ensures { Wrote (raws_text (normal rule (read_identifier identifier.now) (values_at text.now values.now first count)))
        out.old at out.new result }
{
    if !go::value::is_go(rule) {
        return put_raw(out, at, text, values, first, count);
    }
    let shape = go_shape::shape_of(identifier);
    let value = parts::value_at(text, values, first, 0);
    if is_plain(shape, count, value) {
        return put_pair(out, at, value);
    }
    if let Shape::ManyPoints = shape {
        return put_set(out, at, text, values, first, count);
    }
    put_one(out, at, rule, shape, text, values, first, count)
}
