// The Go value of a property.
ghost use Rattle.std.specs.Prelude.{◌≡◌};
ghost use Rattle.values.specs.Read.{read_identifier};
ghost use Rattle.parts.specs.Rows.{values_at};
ghost use Rattle.go.specs.Value.{is_go, move_under, unmarked, value_by, go_value};

use go_points::Value;
use go_shape::Shape;

// A value, and the points of a set: point (x, y) is marked at 52 * x + y.
#[derive(Drop)]
pub struct GoValue {
    pub value: Value,
    pub marks: [bool; 2704],
}

// A value with no point marked.
pub fn unmarked_value(v: Value) -> GoValue
    ensures { result ≡ unmarked v }
{
    GoValue {
        value: v,
        marks: [false; 2704],
    }
}

// Whether a rule is one of Go's.
pub fn is_go(rule: u32) -> bool
    ensures { result ≡ is_go rule }
{
    matches!(rule, 0 | 2)
}

// A move under a rule: the point (19, 19) is a pass where the rule is 0.
#[tactic(auto, unfolding(crate::specs::Value::move_under))]
fn play(rule: u32, v: Value) -> Value
    ensures { result ≡ move_under rule v }
{
    match v {
        Value::Move(19, 19) if rule == 0 => Value::Pass,
        _ => v,
    }
}

// What the values of a property of this shape stand for under a rule, without the marks of a set: a move or a number where there is exactly one.
// Inlined, so that a caller that has no set takes no stack for its marks.
#[inline(always)]
pub fn value_by(
    rule: u32,
    shape: Shape,
    text: &[u8],
    vals: &[u32],
    first: usize,
    count: usize,
) -> Value
    ensures { result ≡ (value_by rule shape (values_at text.now vals.now first count)).value }
{
    match shape {
        Shape::OneMove if count == 1 => {
            play(
                rule,
                go_points::read_move(parts::value_at(text, vals, first, 0)),
            )
        }
        Shape::OneNumber if count == 1 => {
            go_points::read_handicap(parts::value_at(text, vals, first, 0))
        }
        Shape::OneMove | Shape::OneNumber => Value::Invalid,
        Shape::ManyPoints => crate::set::read_points(text, vals, first, count).value,
        Shape::Unread => Value::Other,
    }
}

// The Go value of a property: the rule of its tree, its raw identifier, and the rows of its values.
pub fn go_value(
    rule: u32,
    identifier: &[u8],
    text: &[u8],
    vals: &[u32],
    first: usize,
    count: usize,
) -> GoValue
    ensures { result ≡ go_value rule (read_identifier identifier.now) (values_at text.now vals.now first count) }
{
    if !is_go(rule) {
        return unmarked_value(Value::Other);
    }
    match go_shape::shape_of(identifier) {
        Shape::ManyPoints => crate::set::read_points(text, vals, first, count),
        shape => unmarked_value(value_by(rule, shape, text, vals, first, count)),
    }
}
