// A property by its row: its identifier as a part of the text, and whether that reads as a name.
#![tactic(auto)]

ghost use Rattle.std.specs.Prelude.{◌≡◌};
ghost use Rattle.lists.specs.Same.{same};
ghost use Rattle.values.specs.Read.{read_identifier};
ghost use Rattle.parts_props.specs.Props.{rows_from, identifier_at, named_at};

// How many rows there are from `first` on, at most `count`.
pub fn row_count(properties: &[u32], first: usize, count: usize) -> usize
    ensures { result ≡ rows_from properties.now first count }
{
    let rows = properties.len() / tables::PROPERTY_STRIDE;
    rows.saturating_sub(first).min(count)
}

// The raw identifier of property p, as a part of the text; nothing where there is no such row.
pub fn identifier_at<'a, 'b>(text: &'a [u8], properties: &'b [u32], p: usize) -> &'a [u8]
    ensures { result.now ≡ identifier_at text.now properties.now p }
{
    if properties.len() / tables::PROPERTY_STRIDE <= p {
        return &text[..0];
    }
    parts::value_at(text, properties, p * 2, 0)
}

// Whether a raw identifier reads as a name.
pub fn reads_as(identifier: &[u8], name: &[u8]) -> bool
    ensures { result ≡ same (read_identifier identifier.now) name.now }
{
    let mut n = 0;
    for &b in identifier {
        if !b.is_ascii_uppercase() {
            continue;
        }
        if n == name.len() || b != name[n] {
            return false;
        }
        n += 1;
    }
    n == name.len()
}

// Whether the identifier of property p reads as a name.
pub fn is_named(text: &[u8], properties: &[u32], p: usize, name: &[u8]) -> bool
    ensures { result ≡ named_at text.now properties.now name.now p }
{
    let identifier = identifier_at(text, properties, p);
    reads_as(identifier, name)
}
