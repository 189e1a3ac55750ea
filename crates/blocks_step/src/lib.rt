// One byte a call: UTF-8, and the token rules without contents.
#![tactic(auto)]

ghost use Rattle.std.specs.Prelude.{◌≡◌, ◌-◌, ◌*◌, ◌+◌, ◌%◌};
ghost use Rattle.text_utf8.specs.Text.{holds};
ghost use Rattle.blocks_step.specs.Decode.{range_of, decodes};
ghost use Rattle.blocks_step.specs.Lean.{kind_of, property_phase, moves};

// What is to come of a character: how many bytes, and from or to which byte the next one may be where not every later byte may.
#[derive(Clone, Copy)]
pub enum Left {
    One,
    TwoFromA0,
    TwoTo9f,
    Two,
    ThreeFrom90,
    Three,
    ThreeTo8f,
}

// Where UTF-8 stands between two bytes: between characters; within one, with its start and the bits so far; or bad from a place on.
#[derive(Clone, Copy)]
pub enum Utf8 {
    Whole,
    Within(Left, u32, u32),
    Bad(u32),
}

// What a byte does: it ends a character, white space or not; or UTF-8 stands elsewhere.
#[derive(Clone, Copy)]
pub enum Char {
    Ended(bool),
    Goes(Utf8),
}

// May the next byte of a character be this one.
fn fits(left: Left, b: u8) -> bool
    ensures { result ≡ holds (range_of left) b }
{
    match left {
        Left::One | Left::Two | Left::Three => matches!(b, 0x80..=0xBF),
        Left::TwoFromA0 => matches!(b, 0xA0..=0xBF),
        Left::TwoTo9f => matches!(b, 0x80..=0x9F),
        Left::ThreeFrom90 => matches!(b, 0x90..=0xBF),
        Left::ThreeTo8f => matches!(b, 0x80..=0x8F),
    }
}

// The bits so far, and those of one byte more.
fn shifted(code: u32, b: u8) -> u32
    ensures { result ≡ code % 32768 * 64 + (b - 0x80) }
{
    (code % 32768) * 64 + u32::from(b.saturating_sub(0x80))
}

// The first byte of a character.
#[tactic(auto, unfolding(crate::specs::Decode::decodes))]
fn first_byte(at: u32, b: u8) -> Char
    ensures { result ≡ decodes Utf8.Whole at b }
{
    let (left, base) = match b {
        0x00..=0x7F => return Char::Ended(text_chars::is_white(u32::from(b))),
        0xC2..=0xDF => (Left::One, 0xC0),
        0xE0 => (Left::TwoFromA0, 0xE0),
        0xED => (Left::TwoTo9f, 0xE0),
        0xE1..=0xEF => (Left::Two, 0xE0),
        0xF0 => (Left::ThreeFrom90, 0xF0),
        0xF1..=0xF3 => (Left::Three, 0xF0),
        0xF4 => (Left::ThreeTo8f, 0xF0),
        _ => return Char::Goes(Utf8::Bad(at)),
    };
    Char::Goes(Utf8::Within(left, at, u32::from(b - base)))
}

// A later byte of a character that began at `from`.
#[tactic(auto, unfolding(crate::specs::Decode::decodes))]
fn later_byte(left: Left, from: u32, code: u32, at: u32, b: u8) -> Char
    ensures { result ≡ decodes (Utf8.Within left from code) at b }
{
    if !fits(left, b) {
        return Char::Goes(Utf8::Bad(from));
    }
    let bits = shifted(code, b);
    match left {
        Left::One => Char::Ended(text_chars::is_white(bits)),
        Left::TwoFromA0 | Left::TwoTo9f | Left::Two => {
            Char::Goes(Utf8::Within(Left::One, from, bits))
        }
        Left::ThreeFrom90 | Left::Three | Left::ThreeTo8f => {
            Char::Goes(Utf8::Within(Left::Two, from, bits))
        }
    }
}

// UTF-8 and one byte more, at a place.
#[tactic(auto, unfolding(crate::specs::Decode::decodes))]
pub fn utf8_next(stands: Utf8, at: u32, b: u8) -> Char
    ensures { result ≡ decodes stands at b }
{
    match stands {
        Utf8::Whole => first_byte(at, b),
        Utf8::Within(left, from, code) => later_byte(left, from, code, at, b),
        Utf8::Bad(place) => Char::Goes(Utf8::Bad(place)),
    }
}

// Where the token rules stand between two bytes: between tokens; in the identifier of the property that starts at a place, in a value of it,
// there after a backslash, after a value; or it met a byte that is not ASCII in its identifier.
#[derive(Clone, Copy, PartialEq, Eq)]
pub enum Phase {
    Between,
    Ident(u32),
    Value(u32),
    Escaped(u32),
    After(u32),
    Foreign(u32),
}

// The tokens that a byte completes: none; one of one byte, by its kind; a property, by its start; or both.
#[derive(Clone, Copy)]
pub enum Tokens {
    Silent,
    Single(u32),
    Property(u32),
    Both(u32, u32),
}

// What a byte does: the tokens that it completes, and where the rules stand then.
#[derive(Clone, Copy)]
pub struct Moved {
    pub tokens: Tokens,
    pub next: Phase,
}

// The kind of a token of one byte; 0 is none.
#[tactic(auto, unfolding(crate::specs::Lean::kind_of))]
pub fn kind(b: u8) -> u32
    ensures { result ≡ kind_of b }
{
    match b {
        b'(' => 1,
        b')' => 2,
        b';' => 3,
        _ => 0,
    }
}

// A byte that starts a property, or goes on with its identifier.
#[tactic(auto, unfolding(crate::specs::Lean::property_phase))]
fn identifies(start: u32, b: u8) -> Phase
    ensures { result ≡ property_phase start b }
{
    match b {
        b'[' => Phase::Value(start),
        0x80.. => Phase::Foreign(start),
        _ => Phase::Ident(start),
    }
}

// A byte between tokens.
#[tactic(auto, unfolding(crate::specs::Lean::moves, crate::specs::Lean::kind_of, crate::specs::Lean::property_phase))]
fn begin(at: u32, b: u8) -> Moved
    ensures { result ≡ moves Phase.Between at b }
{
    match kind(b) {
        0 if lexer_scan::is_space(b) => Moved {
            tokens: Tokens::Silent,
            next: Phase::Between,
        },
        0 => Moved {
            tokens: Tokens::Silent,
            next: identifies(at, b),
        },
        k => Moved {
            tokens: Tokens::Single(k),
            next: Phase::Between,
        },
    }
}

// A byte of a value.
#[tactic(auto, unfolding(crate::specs::Lean::moves))]
fn value_byte(start: u32, at: u32, b: u8) -> Moved
    ensures { result ≡ moves (Phase.Value start) at b }
{
    let next = match b {
        b']' => Phase::After(start),
        b'\\' => Phase::Escaped(start),
        _ => Phase::Value(start),
    };
    Moved {
        tokens: Tokens::Silent,
        next,
    }
}

// A byte after a value.
#[tactic(auto, unfolding(crate::specs::Lean::moves, crate::specs::Lean::kind_of, crate::specs::Lean::property_phase))]
fn behind(start: u32, at: u32, b: u8) -> Moved
    ensures { result ≡ moves (Phase.After start) at b }
{
    if lexer_scan::is_space(b) {
        return Moved {
            tokens: Tokens::Silent,
            next: Phase::After(start),
        };
    }
    if b == b'[' {
        return Moved {
            tokens: Tokens::Silent,
            next: Phase::Value(start),
        };
    }
    match kind(b) {
        0 => Moved {
            tokens: Tokens::Property(start),
            next: identifies(at, b),
        },
        k => Moved {
            tokens: Tokens::Both(start, k),
            next: Phase::Between,
        },
    }
}

// The token rules and one byte more, at a place.
#[tactic(auto, unfolding(crate::specs::Lean::moves, crate::specs::Lean::property_phase))]
pub fn token_next(stands: Phase, at: u32, b: u8) -> Moved
    ensures { result ≡ moves stands at b }
{
    let next = match stands {
        Phase::Value(start) => return value_byte(start, at, b),
        Phase::Between => return begin(at, b),
        Phase::After(start) => return behind(start, at, b),
        Phase::Ident(start) => identifies(start, b),
        Phase::Escaped(start) => Phase::Value(start),
        Phase::Foreign(start) => Phase::Foreign(start),
    };
    Moved {
        tokens: Tokens::Silent,
        next,
    }
}
