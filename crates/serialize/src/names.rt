// Identifiers: their uppercase letters.
ghost use Rattle.std.specs.Prelude.{◌≡◌, ℕ, ◌<◌, ltb, length};
ghost use Rattle.values.specs.Read.{read_identifier};
ghost use Rattle.store_bytes.specs.LocalsWrote.{Wrote};
ghost use Rattle.tables.specs.LocalsNames.{NameHeld};
ghost use Rattle.serialize.specs.LocalsWalk.{is_kept, names_good};

use store_bytes::put_byte;

// The uppercase letters of an identifier.
pub fn put_letters(out: &mut [u8], at: usize, name: &[u8]) -> usize
    ensures { Wrote (read_identifier name.now) out.old at out.new result }
{
    let mut to = at;
    let mut i = 0;
    while i < name.len() {
        let b = name[i];
        i += 1;
        if (b'A' <= b) & (b <= b'Z') {
            to = put_byte(out, to, b);
        }
    }
    to
}

// Whether an identifier has an uppercase letter.
fn is_named(name: &[u8]) -> bool
    ensures { result ≡ ltb 0 (length (read_identifier name.now)) }
{
    let mut i = 0;
    while i < name.len() {
        let b = name[i];
        i += 1;
        if (b'A' <= b) & (b <= b'Z') {
            return true;
        }
    }
    false
}

// Whether a property with this identifier is written: any is; where the record is mended, one that stays.
pub fn is_kept(mends: bool, bad: bool, name: &[u8]) -> bool
    ensures { result ≡ is_kept mends bad (read_identifier name.now) }
{
    if !mends {
        return true;
    }
    if !is_named(name) {
        return false;
    }
    if !bad {
        return true;
    }
    !parts_props::reads_as(name, b"GM")
}

// Whether each of n identifiers has an uppercase letter.
pub fn names_good(text: &[u8], properties: &[u32], n: usize) -> bool
    requires { (p : ℕ) → p < n → NameHeld text.now properties.now p }
    ensures { result ≡ names_good text.now properties.now n }
{
    let mut k: usize = 0;
    while k < n {
        let start = lists::wide(properties[k * tables::PROPERTY_STRIDE]);
        let end = lists::wide(properties[k * tables::PROPERTY_STRIDE + tables::PROPERTY_END]);
        if !is_named(&text[start..end]) {
            return false;
        }
        k += 1;
    }
    true
}
