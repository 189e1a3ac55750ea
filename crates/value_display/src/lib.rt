// Text display: `format_text` and `SimpleText`, over read values and with no copy.
#![tactic(auto)]

ghost use Rattle.std.specs.Prelude.{◌≡◌, ◌<◌, leb, length};
ghost use Rattle.values.specs.Read.{read_value};
ghost use Rattle.value_display.specs.Display.{blank1, blank2, blank3, format_text, one_line, display_text, displayed, displayed_in};
ghost use Rattle.value_display.specs.LocalsShowing.{DisplaysAt, Peeks, FormatsAt, other_break, Past};
ghost use Rattle.store_bytes.specs.LocalsWrote.{Wrote};

#[derive(Clone, Copy)]
pub enum Kind {
    Text,
    SimpleText,
}

// A byte ahead, 0 at the end, and the place after it.
#[derive(Clone, Copy)]
struct Ahead {
    byte: u8,
    next: usize,
}

// White space of one byte, but for line breaks.
fn is_blank1(a: u8) -> bool
    ensures { result ≡ blank1 a }
{
    (a == 0x09) | ((a == 0x0B) | ((a == 0x0C) | (a == 0x20)))
}

// White space of two bytes.
fn is_blank2(a: u8, b: u8) -> bool
    ensures { result ≡ blank2 a b }
{
    (a == 0xC2) & ((b == 0x85) | (b == 0xA0))
}

// White space of three bytes.
fn is_blank3(a: u8, b: u8, c: u8) -> bool
    ensures { result ≡ blank3 a b c }
{
    let spaces = (0x80 <= c) & (c <= 0x8A);
    let lines = (c == 0xA8) | ((c == 0xA9) | (c == 0xAF));
    ((a == 0xE1) & ((b == 0x9A) & (c == 0x80)))
        | (((a == 0xE2) & ((b == 0x80) & (spaces | lines)))
            | (((a == 0xE2) & ((b == 0x81) & (c == 0x9F)))
                | ((a == 0xE3) & ((b == 0x80) & (c == 0x80)))))
}

// The read byte ahead.
fn peek(s: &[u8], at: usize) -> Ahead
    ensures { Peeks (λ z. z) s.now at result.byte result.next }
{
    let Some((b, n)) = values::read::next_read(s, at) else {
        return Ahead { byte: 0, next: at };
    };
    Ahead { byte: b, next: n }
}

// What is shown of a byte that is no backslash and of those behind it: white space is one space, line breaks apart.
fn plain_byte(s: &[u8], b: u8, at: usize) -> Ahead
    requires { b ≡ 92 → ⊥ }
    ensures { FormatsAt b s.now at result.byte result.next }
{
    if is_blank1(b) {
        return Ahead {
            byte: b' ',
            next: at,
        };
    }
    if (b < 0xC2) | (0xE3 < b) {
        return Ahead { byte: b, next: at };
    }
    let second = peek(s, at);
    if is_blank2(b, second.byte) {
        return Ahead {
            byte: b' ',
            next: second.next,
        };
    }
    let third = peek(s, second.next);
    if is_blank3(b, second.byte, third.byte) {
        return Ahead {
            byte: b' ',
            next: third.next,
        };
    }
    Ahead { byte: b, next: at }
}

// The line break byte that makes a pair with b, or 0.
fn other_break(b: u8) -> u8
    ensures { result ≡ other_break b }
{
    if b == b'\n' {
        return b'\r';
    }
    if b == b'\r' {
        return b'\n';
    }
    0
}

// The place after a byte, where it is the next read one.
fn past(s: &[u8], at: usize, other: u8) -> usize
    ensures { Past other s.now at result }
{
    let p = peek(s, at);
    if p.byte == other {
        return p.next;
    }
    at
}

// The next byte that `format_text` shows. Inlined, so that what it gives goes through no memory: a byte and a place make an Option of 24 bytes.
#[inline(always)]
fn next_text(s: &[u8], from: usize) -> Option<(u8, usize)>
    ensures { DisplaysAt format_text s.now from result }
{
    let mut at = from;
    // A loop: `at` moves past a break that is not shown.
    loop {
        let Some((b, n)) = values::read::next_read(s, at) else {
            return None;
        };
        if b != b'\\' {
            let p = plain_byte(s, b, n);
            return Some((p.byte, p.next));
        }
        let Some((c, m)) = values::read::next_read(s, n) else {
            return Some((b, n));
        };
        let other = other_break(c);
        if other == 0 {
            return Some((c, m));
        }
        at = past(s, m, other);
    }
}

// The byte ahead that `format_text` shows.
fn peek_text(s: &[u8], at: usize) -> Ahead
    ensures { Peeks format_text s.now at result.byte result.next }
{
    let Some((b, n)) = next_text(s, at) else {
        return Ahead { byte: 0, next: at };
    };
    Ahead { byte: b, next: n }
}

// The next byte that `SimpleText` shows: of line breaks CR LF is one space first, then LF CR, then each.
fn next_simple(s: &[u8], at: usize) -> Option<(u8, usize)>
    ensures { DisplaysAt (λ z. one_line (format_text z)) s.now at result }
{
    let Some((b, n)) = next_text(s, at) else {
        return None;
    };
    if other_break(b) == 0 {
        return Some((b, n));
    }
    let second = peek_text(s, n);
    if b == b'\r' {
        if second.byte == b'\n' {
            return Some((b' ', second.next));
        }
        return Some((b' ', n));
    }
    if second.byte != b'\r' {
        return Some((b' ', n));
    }
    let third = peek_text(s, second.next);
    if third.byte == b'\n' {
        return Some((b' ', n));
    }
    Some((b' ', second.next))
}

// The next byte of what is shown, by the kind.
fn next_shown(kind: Kind, s: &[u8], at: usize) -> Option<(u8, usize)>
    ensures { DisplaysAt (display_text kind) s.now at result }
{
    match kind {
        Kind::Text => next_text(s, at),
        Kind::SimpleText => next_simple(s, at),
    }
}

// What a raw value shows, put into the output where it has room; its length.
fn put_shown(kind: Kind, raw: &[u8], out: &mut [u8]) -> usize
    ensures { Wrote (display_text kind (read_value raw.now)) out.old 0 out.new result }
{
    let mut at: usize = 0;
    let mut to: usize = 0;
    // A loop: `at` moves by what the next shown byte takes.
    loop {
        let Some((b, n)) = next_shown(kind, raw, at) else {
            return to;
        };
        to = store_bytes::put_byte(out, to, b);
        at = n;
    }
}

// Whether the output has room for what a raw value shows, which is never longer than the value.
fn has_room(kind: Kind, raw: &[u8], out: &mut [u8]) -> bool
    ensures value { result ≡ leb (length (display_text kind (read_value raw.now))) (length out.old) }
    ensures out_unchanged { out.new ≡ out.old }
{
    if raw.len() <= out.len() {
        return true;
    }
    let need = put_shown(kind, raw, &mut out[..0]);
    need <= out.len()
}

// Displays a raw value in the output, or changes nothing where it has no room for all of it.
pub fn display(kind: Kind, raw: &[u8], out: &mut [u8]) -> Option<usize>
    ensures value { result ≡ displayed (display_text kind (read_value raw.now)) out.old }
    ensures out_after { out.new ≡ displayed_in (display_text kind (read_value raw.now)) out.old }
{
    if !has_room(kind, raw, out) {
        return None;
    }
    let length = put_shown(kind, raw, out);
    Some(length)
}
