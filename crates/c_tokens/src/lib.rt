// Trimming, tokens and values, one call each, as the structs of the C header.
#![tactic(auto)]

ghost use Rattle.std.specs.Prelude.{◌≡◌};
ghost use Rattle.text_utf8.specs.Trim.{trimmed};
ghost use Rattle.lexer_scan.specs.Scan.{value_step_at};
ghost use Rattle.lexer.specs.Step.{next_at};
ghost use Rattle.c_tokens.specs.Tokens.{TrimIs, TokenIs, ValueIs};

use lexer::Step;
use lexer_scan::ValueStep;
use text_utf8::Trimmed;

// Number 0 and what trimming keeps; or number 2 and the start of the first bad sequence.
#[repr(C)]
#[derive(Clone, Copy)]
pub struct SgfTrim {
    pub number: u32,
    pub place: usize,
    pub first: usize,
    pub last: usize,
}

// Is the text UTF-8, and what does trimming keep of it.
pub fn trim(text: &[u8]) -> SgfTrim
    ensures { TrimIs (trimmed text.now) result.number result.place result.first result.last }
{
    match text_utf8::trim(text) {
        Trimmed::NotUtf8(p) => SgfTrim {
            number: 2,
            place: p,
            first: 0,
            last: 0,
        },
        Trimmed::Blank => SgfTrim {
            number: 0,
            place: 0,
            first: 0,
            last: 0,
        },
        Trimmed::Kept(f, l) => SgfTrim {
            number: 0,
            place: 0,
            first: f,
            last: l,
        },
    }
}

// Kind 0 the end of the text, 1 `(`, 2 `)`, 3 `;`, 4 a property with its first `[`, 5 a fault with its number; and the span, whose end is the next place.
#[repr(C)]
#[derive(Clone, Copy)]
pub struct SgfToken {
    pub kind: u32,
    pub number: u32,
    pub from: usize,
    pub opens: usize,
    pub to: usize,
}

// A token without an identifier.
fn single(kind: u32, from: usize, to: usize) -> SgfToken
    ensures { (result.kind ≡ kind) × (result.number ≡ 0) × (result.from ≡ from) × (result.opens ≡ from) × (result.to ≡ to) }
{
    SgfToken {
        kind: kind,
        number: 0,
        from: from,
        opens: from,
        to: to,
    }
}

// A fault: its number, and the start of the token.
fn faulty(number: u32, from: usize) -> SgfToken
    ensures { (result.kind ≡ 5) × (result.number ≡ number) × (result.from ≡ from) × (result.opens ≡ from) × (result.to ≡ from) }
{
    SgfToken {
        kind: 5,
        number: number,
        from: from,
        opens: from,
        to: from,
    }
}

// The next token from a place on.
pub fn token(text: &[u8], at: usize) -> SgfToken
    ensures { TokenIs at (next_at text.now at) result.kind result.number result.from result.opens result.to }
{
    match lexer::next_token(text, at) {
        Step::Start(i) => single(1, i, i + 1),
        Step::End(i) => single(2, i, i + 1),
        Step::Node(i) => single(3, i, i + 1),
        Step::Property(i, k, e) => SgfToken {
            kind: 4,
            number: 0,
            from: i,
            opens: k,
            to: e,
        },
        Step::Refused(f, i) => faulty(u32::from(f), i),
        Step::Done => single(0, at, at),
    }
}

// Kind 0 no value opens there, 1 a value with its span and the next place, 2 a value that does not close.
#[repr(C)]
#[derive(Clone, Copy)]
pub struct SgfValue {
    pub kind: u32,
    pub from: usize,
    pub to: usize,
    pub next: usize,
}

// The value of a property whose `[` stands at a place.
pub fn next_value(text: &[u8], at: usize) -> SgfValue
    ensures { ValueIs at (value_step_at text.now at) result.kind result.from result.to result.next }
{
    match lexer_scan::next_value(text, at) {
        ValueStep::Value(a, e, n) => SgfValue {
            kind: 1,
            from: a,
            to: e,
            next: n,
        },
        ValueStep::NoMore => SgfValue {
            kind: 0,
            from: at,
            to: at,
            next: at,
        },
        ValueStep::Unclosed => SgfValue {
            kind: 2,
            from: at,
            to: at,
            next: at,
        },
    }
}
