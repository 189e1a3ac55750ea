// What one value stands for in Go: a move, a number of stones, an area of points.
#![tactic(auto)]

ghost use Rattle.std.specs.Prelude.{◌≡◌, ◌∷◌, ◌-◌, ◌^◌, drop};
ghost use Rattle.values.specs.Read.{read_value};
ghost use Rattle.values.specs.Decimal.{decimal_of};
ghost use Rattle.go_points.specs.Area.{letter_of, move_to, move_of, cornered, area_of};
ghost use Rattle.go_points.specs.Handicap.{handicap_of};

use values::decimal::Number;

// What a property stands for.
#[derive(Clone, Copy)]
pub enum Value {
    Other,
    Invalid,
    Pass,
    Move(u8, u8),
    Handicap(u64),
    Points,
}

// The points from (x, y) to (x2, y2). One point is both of its corners.
#[derive(Clone, Copy)]
pub enum Area {
    Bad,
    Rect { x: u8, y: u8, x2: u8, y2: u8 },
}

// The coordinate that a letter is, or 52.
#[tactic(auto, unfolding(crate::specs::Area::letter_of))]
pub fn letter_of(b: u8) -> u8
    ensures { result ≡ letter_of b }
{
    match b {
        b'a'..=b'z' => b - b'a',
        b'A'..=b'Z' => b - b'A' + 26,
        _ => 52,
    }
}

// The move to the point (x, y).
#[tactic(auto, unfolding(crate::specs::Area::move_to))]
fn move_to(x: u8, y: u8) -> Value
    ensures { result ≡ move_to x y }
{
    if x <= 51 && y <= 51 {
        return Value::Move(x, y);
    }
    Value::Invalid
}

// The move that a value stands for.
pub fn read_move(s: &[u8]) -> Value
    ensures { result ≡ move_of (read_value s.now) }
{
    let Some((a, at1)) = values::read::next_read(s, 0) else {
        return Value::Pass;
    };
    let Some((b, at2)) = values::read::next_read(s, at1) else {
        return Value::Invalid;
    };
    let Some(_) = values::read::next_read(s, at2) else {
        return move_to(letter_of(a), letter_of(b));
    };
    Value::Invalid
}

// The number of handicap stones that a value stands for.
#[tactic(auto, unfolding(crate::specs::Handicap::handicap_of))]
pub fn read_handicap(s: &[u8]) -> Value
    ensures { result ≡ handicap_of (decimal_of (2 ^ 63 - 1) (read_value s.now)) }
{
    match values::decimal::read_i64(s) {
        Number::Plus(n) if n >= 2 => Value::Handicap(n),
        _ => Value::Invalid,
    }
}

// The area between two corners by their letters.
#[tactic(auto, unfolding(crate::specs::Area::cornered))]
fn area_of(a: u8, b: u8, d: u8, e: u8) -> Area
    ensures { result ≡ cornered (letter_of a) (letter_of b) (letter_of d) (letter_of e) }
{
    let x = letter_of(a);
    let y = letter_of(b);
    let x2 = letter_of(d);
    let y2 = letter_of(e);
    if x <= x2 && y <= y2 && x2 <= 51 && y2 <= 51 {
        return Area::Rect { x, y, x2, y2 };
    }
    Area::Bad
}

// The area from the corner `a`, `b` to the one that is read from `at` on, behind the colon.
fn area_to(a: u8, b: u8, s: &[u8], at: usize) -> Area
    ensures { result ≡ area_of (a ∷ b ∷ 0x3a ∷ read_value (drop at s.now)) }
{
    let Some((d, at1)) = values::read::next_read(s, at) else {
        return Area::Bad;
    };
    let Some((e, at2)) = values::read::next_read(s, at1) else {
        return Area::Bad;
    };
    let Some(_) = values::read::next_read(s, at2) else {
        return area_of(a, b, d, e);
    };
    Area::Bad
}

// What one value of a list of points stands for.
pub fn read_area(s: &[u8]) -> Area
    ensures { result ≡ area_of (read_value s.now) }
{
    let Some((a, at1)) = values::read::next_read(s, 0) else {
        return Area::Bad;
    };
    let Some((b, at2)) = values::read::next_read(s, at1) else {
        return Area::Bad;
    };
    let Some((colon, at3)) = values::read::next_read(s, at2) else {
        return area_of(a, b, a, b);
    };
    if colon != b':' {
        return Area::Bad;
    }
    area_to(a, b, s, at3)
}
