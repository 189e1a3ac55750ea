// Plain text as a raw value: a backslash before each backslash and each `]`.
#![tactic(auto)]

ghost use Rattle.std.specs.Prelude.{◌≡◌, leb, length};
ghost use Rattle.store_bytes.specs.LocalsWrote.{Wrote};
ghost use Rattle.value_display.specs.Display.{displayed, displayed_in};
ghost use Rattle.value_escape.specs.Escape.{escaped_byte, escaped_text};

// One byte, behind a backslash where it wants one, put into the output where it has room; the place after it.
fn put_escaped(out: &mut [u8], at: usize, b: u8) -> usize
    ensures { Wrote (escaped_byte b) out.old at out.new result }
{
    if (b == b'\\') | (b == b']') {
        let next = store_bytes::put_byte(out, at, b'\\');
        return store_bytes::put_byte(out, next, b);
    }
    store_bytes::put_byte(out, at, b)
}

// The raw value put into the output where it has room; its length.
fn put_text(text: &[u8], out: &mut [u8]) -> usize
    ensures { Wrote (escaped_text text.now) out.old 0 out.new result }
{
    let mut to: usize = 0;
    for b in text {
        to = put_escaped(out, to, *b);
    }
    to
}

// Whether the output has room for the raw value.
fn has_room(text: &[u8], out: &mut [u8]) -> bool
    ensures value { result ≡ leb (length (escaped_text text.now)) (length out.old) }
    ensures out_unchanged { out.new ≡ out.old }
{
    let need = put_text(text, &mut out[..0]);
    need <= out.len()
}

// Plain text escaped in the output, or nothing changed where it has no room for all of it.
pub fn escape(text: &[u8], out: &mut [u8]) -> Option<usize>
    ensures value { result ≡ displayed (escaped_text text.now) out.old }
    ensures out_after { out.new ≡ displayed_in (escaped_text text.now) out.old }
{
    if !has_room(text, out) {
        return None;
    }
    let length = put_text(text, out);
    Some(length)
}
