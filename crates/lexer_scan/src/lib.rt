// The scans of the token rules: white space, an identifier, a value and values, each from a place on.
#![tactic(auto)]

ghost use Rattle.std.specs.Prelude.{◌≡◌};
ghost use Rattle.lexer_scan.specs.Scan.{space, skip_at, ident_at, value_step_at, values_end_at};

// Where an identifier ends: at a `[`; or the text ends first; or a byte that is not ASCII comes first.
#[derive(Clone, Copy)]
pub enum Ident {
    Opens(usize),
    Missing,
    Foreign,
}

// Space, tab, LF, VT, FF or CR.
pub fn is_space(b: u8) -> bool
    ensures { result ≡ space b }
{
    (b == 32) | (b == 9) | (b == 10) | (b == 11) | (b == 12) | (b == 13)
}

// The first place at or after `from` that is no white space.
pub fn skip_space(s: &[u8], from: usize) -> usize
    ensures { result ≡ skip_at s.now from }
{
    for i in from..s.len() {
        if !is_space(s[i]) {
            return i;
        }
    }
    s.len().max(from)
}

// The `[` that ends the identifier at `from`.
pub fn ident_end(s: &[u8], from: usize) -> Ident
    ensures { result ≡ ident_at s.now from }
{
    for i in from..s.len() {
        let b = s[i];
        if b == b'[' {
            return Ident::Opens(i);
        }
        if 128 <= b {
            return Ident::Foreign;
        }
    }
    Ident::Missing
}

// A value of a property: its first place, the place of its `]`, and where the white space after it ends.
#[derive(Clone, Copy)]
pub enum ValueStep {
    Value(usize, usize, usize),
    NoMore,
    Unclosed,
}

// The value whose `[` stands at `at`.
pub fn next_value(s: &[u8], at: usize) -> ValueStep
    ensures { result ≡ value_step_at s.now at }
{
    if s.len() <= at {
        return ValueStep::NoMore;
    }
    if s[at] != b'[' {
        return ValueStep::NoMore;
    }
    let Some(to) = lexer_close::quick_end(s, at + 1) else {
        return ValueStep::Unclosed;
    };
    let next = skip_space(s, to + 1);
    ValueStep::Value(at + 1, to, next)
}

// Past the values that stand from `from` on, and the white space after each.
pub fn values_end(s: &[u8], from: usize) -> Option<usize>
    ensures { result ≡ values_end_at s.now from }
{
    let mut i = from;
    // A loop: i moves by a value.
    loop {
        if s.len() <= i {
            break Some(i);
        }
        if s[i] != b'[' {
            break Some(i);
        }
        let Some(to) = lexer_close::quick_end(s, i + 1) else {
            break None;
        };
        i = skip_space(s, to + 1);
    }
}
