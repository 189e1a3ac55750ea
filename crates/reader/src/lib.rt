// The reader: a text into the four lent tables. Two operations, strict and lenient, each with its own definition; below them one walk with the mode as an argument.
#![tactic(auto)]

mod slices; // slices.rt: the trees of all slices

ghost use Rattle.std.specs.Prelude.{◌≡◌};
ghost use Rattle.lexer.specs.Token.{lex_at};
ghost use Rattle.parser.specs.Read as definition;
ghost use Rattle.tables.specs.Lenient.{as_reading};
ghost use Rattle.parser_census.specs.LocalsCensus.{census_of};
ghost use Rattle.reader.specs.Lent.{lent, rows_counted, ReadIs, LenientIs};
ghost use Rattle.reader.specs.LocalsKnown.{known_by, known_of};
ghost use Rattle.reader.specs.LocalsMild.{Mild};

use tables::{Counts, LenientRefusal, Reason, Refusal};
use text_utf8::Trimmed;

// What the census says of the part that ends at `last`.
fn known_part(s: &[u8], first: usize, last: usize) -> Option<(usize, usize, Counts)>
    ensures { result ≡ known_by first last (census_of (lex_at s.now first)) }
{
    match parser_census::take_census(s, first) {
        Some((t, n, p, v)) => Some((
            first,
            last,
            Counts {
                trees: t,
                nodes: n,
                properties: p,
                values: v,
            },
        )),
        None => None,
    }
}

// What the census says of a text.
pub fn known_text(text: &[u8]) -> Option<(usize, usize, Counts)>
    ensures { result ≡ known_of text.now }
{
    if tables::TEXT_LIMIT < text.len() {
        return None;
    }
    match text_utf8::trim(text) {
        Trimmed::NotUtf8(_) => None,
        Trimmed::Blank => None,
        Trimmed::Kept(first, last) => known_part(&text[..last], first, last),
    }
}

// Reads a text of which nothing is known.
fn read_odd(
    text: &[u8],
    lenient: bool,
    trees: &mut [u32],
    nodes: &mut [u32],
    properties: &mut [u32],
    values: &mut [u32],
) -> Result<Counts, Refusal<Reason>>
    ensures { ReadIs (definition.read lenient text.now)
        (lent trees.old nodes.old properties.old values.old)
        (lent trees.new nodes.new properties.new values.new)
        result }
{
    match parser_split::plan_text(text, lenient) {
        Err(refused) => Err(refused),
        Ok((first, last, count)) => slices::read_slices(
            &text[..last],
            first,
            count,
            lenient,
            trees,
            nodes,
            properties,
            values,
        ),
    }
}

// Reads a text of which the census has said this. Most texts have nothing odd, and are then walked once more only.
fn read_by(
    text: &[u8],
    known: Option<(usize, usize, Counts)>,
    lenient: bool,
    trees: &mut [u32],
    nodes: &mut [u32],
    properties: &mut [u32],
    values: &mut [u32],
) -> Result<Counts, Refusal<Reason>>
    requires { known ≡ known_of text.now }
    ensures { ReadIs (definition.read lenient text.now)
        (lent trees.old nodes.old properties.old values.old)
        (lent trees.new nodes.new properties.new values.new)
        result }
{
    match known {
        None => read_odd(text, lenient, trees, nodes, properties, values),
        Some((first, last, counts)) => slices::fill(
            &text[..last],
            first,
            counts,
            lenient,
            true,
            trees,
            nodes,
            properties,
            values,
        ),
    }
}

// Reads a text, strictly or leniently.
fn read(
    text: &[u8],
    lenient: bool,
    trees: &mut [u32],
    nodes: &mut [u32],
    properties: &mut [u32],
    values: &mut [u32],
) -> Result<Counts, Refusal<Reason>>
    ensures { ReadIs (definition.read lenient text.now)
        (lent trees.old nodes.old properties.old values.old)
        (lent trees.new nodes.new properties.new values.new)
        result }
{
    let known = known_text(text);
    read_by(text, known, lenient, trees, nodes, properties, values)
}

// Reads a text into the lent tables, strictly: the counts, or why it is refused and the place.
pub fn read_strict(
    text: &[u8],
    trees: &mut [u32],
    nodes: &mut [u32],
    properties: &mut [u32],
    values: &mut [u32],
) -> Result<Counts, Refusal<Reason>>
    ensures { ReadIs (definition.read_strict text.now)
        (lent trees.old nodes.old properties.old values.old)
        (lent trees.new nodes.new properties.new values.new)
        result }
{
    read(text, false, trees, nodes, properties, values)
}

// The case of a lenient reading. No other reason comes from one.
fn mild(reading: Result<Counts, Refusal<Reason>>) -> Result<Counts, LenientRefusal>
    requires { Mild reading }
    ensures { as_reading result ≡ reading }
{
    match reading {
        Ok(counts) => Ok(counts),
        Err(refused) => {
            match refused.reason {
                Reason::TextTooLong => Err(LenientRefusal::TextTooLong),
                Reason::NotUtf8 => Err(LenientRefusal::NotUtf8(refused.place)),
                Reason::TooDeep => Err(LenientRefusal::TooDeep),
                _ => Err(LenientRefusal::NoRoom),
            }
        }
    }
}

// Reads a text of which the census has said this into the lent tables, leniently: the counts, or one of four refusals.
pub fn read_known(
    text: &[u8],
    known: Option<(usize, usize, Counts)>,
    trees: &mut [u32],
    nodes: &mut [u32],
    properties: &mut [u32],
    values: &mut [u32],
) -> Result<Counts, LenientRefusal>
    requires { known ≡ known_of text.now }
    ensures { LenientIs (definition.read_lenient text.now)
        (lent trees.old nodes.old properties.old values.old)
        (lent trees.new nodes.new properties.new values.new)
        result }
{
    mild(read_by(text, known, true, trees, nodes, properties, values))
}

// Reads a text into the lent tables, leniently: the counts, or one of four refusals.
pub fn read_lenient(
    text: &[u8],
    trees: &mut [u32],
    nodes: &mut [u32],
    properties: &mut [u32],
    values: &mut [u32],
) -> Result<Counts, LenientRefusal>
    ensures { LenientIs (definition.read_lenient text.now)
        (lent trees.old nodes.old properties.old values.old)
        (lent trees.new nodes.new properties.new values.new)
        result }
{
    mild(read(text, true, trees, nodes, properties, values))
}

// How many rows a text of which nothing is known has.
fn count_odd(text: &[u8], lenient: bool) -> Result<Counts, Refusal<Reason>>
    ensures { result ≡ rows_counted (definition.read lenient text.now) }
{
    match parser_split::plan_text(text, lenient) {
        Err(refused) => Err(refused),
        Ok((first, last, count)) => { slices::count_slices(&text[..last], first, count, lenient) }
    }
}

// How many rows a text has, read strictly or leniently. No table is lent and none is needed.
fn count(text: &[u8], lenient: bool) -> Result<Counts, Refusal<Reason>>
    ensures { result ≡ rows_counted (definition.read lenient text.now) }
{
    match known_text(text) {
        None => count_odd(text, lenient),
        Some((_, _, counts)) => Ok(counts),
    }
}

// How many rows a strict reading of a text needs, or why it is refused and the place.
pub fn count_strict(text: &[u8]) -> Result<Counts, Refusal<Reason>>
    ensures { result ≡ rows_counted (definition.read_strict text.now) }
{
    count(text, false)
}

// How many rows a lenient reading of a text needs, or why it is refused.
pub fn count_lenient(text: &[u8]) -> Result<Counts, LenientRefusal>
    ensures { as_reading result ≡ rows_counted (definition.read_lenient text.now) }
{
    mild(count(text, true))
}
