// What measuring a mended text asks of its properties, found over the text without rows: the length of each as it is written, and the rule of a tree.
#![tactic(auto)]

pub mod root; // root.rt: the rule of a tree

ghost use Rattle.std.specs.Prelude.{◌≡◌, true, [], ◌∷◌, ◌+◌, ◌*◌, ◌≤◌, length};
ghost use Rattle.values.specs.Read.{read_identifier};
ghost use Rattle.values.specs.Decimal.{decimal};
ghost use Rattle.tables.specs.Numbers.{text_limit};
ghost use Rattle.go.specs.Normal.{points_from, normal};
ghost use Rattle.go_shape.specs.declared.Shape.TheVariants.{OneMove, ManyPoints};
ghost use Rattle.serialize_values.specs.LocalsForm.{form_by, raws_text};
ghost use Rattle.salvage_form.specs.Measured.{raws_at, length_limit, property_length};
ghost use Rattle.salvage_form.specs.LocalsMeasured.{form_limit, form_length};

use go_points::Value;
use go_shape::Shape;
use lexer_scan::ValueStep;

// How many uppercase letters an identifier has.
fn count_letters(name: &[u8]) -> usize
    ensures { (result ≡ length (read_identifier name.now)) × (result ≤ length name.now) }
{
    name.iter().filter(|b| b.is_ascii_uppercase()).count()
}

// The length of the values from k on in their brackets, as they are raw.
fn raw_length(s: &[u8], k: usize) -> usize
    ensures { (result ≡ length (raws_text (raws_at s.now k))) × (result ≤ length s.now) }
{
    let mut n: usize = 0;
    let mut at = k;
    // A loop: `at` moves by the value that it finds.
    loop {
        let ValueStep::Value(a, e, next) = lexer_scan::next_value(s, at) else {
            break;
        };
        n += e - a + 2;
        at = next;
    }
    n
}

// How many places are marked.
fn count_marks(marks: &[bool; 2704]) -> usize
    requires { length marks.now ≡ 2704 }
    ensures { (result * 4 ≡ length (raws_text (points_from 0 marks.now))) × (result ≤ 2704) }
{
    let mut n: usize = 0;
    for marked in marks {
        if *marked {
            n += 1;
        }
    }
    n
}

// The length of a set whose values stand from k on: of its points, or of the raw values of what is none.
fn set_length(s: &[u8], k: usize) -> usize
    requires { length s.now ≤ text_limit }
    ensures { (result ≡ length (raws_text (form_by 0 ManyPoints (raws_at s.now k)))) × (result ≤ form_limit) }
{
    let mut marks = [false; 2704];
    let mut at = k;
    // A loop: `at` moves by the value that it finds.
    loop {
        let ValueStep::Value(a, e, next) = lexer_scan::next_value(s, at) else {
            break;
        };
        if !go::set::mark_value(&mut marks, &s[a..e]) {
            return raw_length(s, k);
        }
        at = next;
    }
    count_marks(&marks) * 4
}

// How many digits a number has.
fn count_digits(n: u64) -> usize
    ensures { (result ≡ length (decimal n)) × (result ≤ 20) }
{
    let mut none = [0u8; 1];
    values::spell::put_decimal(&mut none, 0, n)
}

// The length of one value that is to be a move.
fn move_length(rule: u32, value: &[u8]) -> usize
    requires { length value.now ≤ text_limit }
    ensures { (result ≡ length (raws_text (form_by rule OneMove (value.now ∷ [])))) × (result ≤ form_limit) }
{
    match go_points::read_move(value) {
        Value::Pass => 2,
        Value::Move(x, y) => {
            if (rule == 0) & ((x == 19) & (y == 19)) {
                return 2;
            }
            4
        }
        Value::Handicap(n) => count_digits(n) + 2,
        _ => value.len() + 2,
    }
}

// The length of one value of a shape that is no set.
fn alone_length(rule: u32, shape: Shape, value: &[u8]) -> usize
    requires { (length value.now ≤ text_limit) × (shape ≡ ManyPoints → ⊥) }
    ensures { (result ≡ length (raws_text (form_by rule shape (value.now ∷ [])))) × (result ≤ form_limit) }
{
    if let Shape::OneMove = shape {
        return move_length(rule, value);
    }
    let rows = [0u32, value.len() as u32];
    match go::value::value_by(rule, shape, value, &rows, 0, 1) {
        Value::Pass => 2,
        Value::Move(_, _) => 4,
        Value::Handicap(n) => count_digits(n) + 2,
        _ => value.len() + 2,
    }
}

// The length of the values from k on of a shape that is no set: only a value that is alone may be written otherwise than it is raw.
fn one_length(s: &[u8], k: usize, rule: u32, shape: Shape) -> usize
    requires { (length s.now ≤ text_limit) × (shape ≡ ManyPoints → ⊥) }
    ensures { (result ≡ length (raws_text (form_by rule shape (raws_at s.now k)))) × (result ≤ form_limit) }
{
    let ValueStep::Value(a, e, next) = lexer_scan::next_value(s, k) else {
        return 0;
    };
    let ValueStep::Value(_, _, _) = lexer_scan::next_value(s, next) else {
        return alone_length(rule, shape, &s[a..e]);
    };
    raw_length(s, k)
}

// The length of the values from k on: the rule of the tree, and the raw identifier.
fn values_length(s: &[u8], k: usize, rule: u32, name: &[u8]) -> usize
    requires { length s.now ≤ text_limit }
    ensures { (result ≡ length (raws_text (normal rule (read_identifier name.now) (raws_at s.now k)))) × (result ≤ form_limit) }
{
    if !((rule == 0) | (rule == 2)) {
        return raw_length(s, k);
    }
    let shape = go_shape::shape_of(name);
    if let Shape::ManyPoints = shape {
        return set_length(s, k);
    }
    if let Shape::Unread = shape {
        return raw_length(s, k);
    }
    one_length(s, k, rule, shape)
}

// The length of the property that starts at i and whose first `[` is at k, as it is written in a tree with this rule.
fn form_length(s: &[u8], rule: u32, i: usize, k: usize) -> usize
    requires { (length s.now ≤ text_limit) × (i ≤ k) × (k ≤ length s.now) }
    ensures { (result ≡ form_length s.now rule i k) × (result ≤ length_limit) }
{
    let letters = count_letters(&s[i..k]);
    letters + values_length(s, k, rule, &s[i..k])
}

// The same at any places of any text: 0 where the text is too long or has no such places.
pub fn property_length(s: &[u8], rule: u32, i: usize, k: usize) -> usize
    ensures { (result ≡ property_length s.now rule i k) × (result ≤ length_limit) }
{
    if tables::TEXT_LIMIT < s.len() {
        return 0;
    }
    if s.len() < k {
        return 0;
    }
    if k < i {
        return 0;
    }
    form_length(s, rule, i, k)
}
