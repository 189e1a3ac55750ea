// The library that crates/sgf_c exports: one function an operation. Each only calls a proved operation and shows its answer as numbers; include/sgf.h says what a caller sees.
#![tactic(auto)]

pub mod index; // index.rt: the property index, simple values
pub mod escape;
pub mod feeds; // feeds.rt: corrections over the air
pub mod boards;
pub mod by_blocks;
pub mod names; // names.rt: an identifier by its read letters
pub mod length; // length.rt: the length of a writing
pub mod season;
pub mod size; // size.rt: the board size of a tree
pub mod explain;
pub mod salvaging;

ghost use Rattle.std.specs.Prelude.{◌≡◌};
ghost use Rattle.lists.specs.Pick.{pick};
ghost use Rattle.lexer_scan.specs.Scan.{value_step_at};
ghost use Rattle.lexer.specs.Step.{next_at};
ghost use Rattle.text_utf8.specs.Trim.{trimmed};
ghost use Rattle.parser.specs.Read.{read_strict, read_lenient};
ghost use Rattle.reader.specs.Lent.{lent};
ghost use Rattle.fit.specs.Fit.{Fit};
ghost use Rattle.ask_value.specs.Access.{accessed};
ghost use Rattle.parts.specs.Rows.{values_at};
ghost use Rattle.go_shape.specs.Shape.{shape_of};
ghost use Rattle.go_shape.specs.declared.Shape.TheVariants.{Unread};
ghost use Rattle.go.specs.Value.{is_go, go_value};
ghost use Rattle.ask.specs.Ask.{refusal_number, go_answer};
ghost use Rattle.values.specs.Read.{read_identifier};
ghost use Rattle.c_answers.specs.Structs.{span_in_c, go_in_c};
ghost use Rattle.sgf.specs.ChangeInC.{WriteInC, EditInC};
ghost use Rattle.sgf.specs.AskInC.{display_kind, fits_in_c, go_answer_in_c, DisplayInC, RawInC};
ghost use Rattle.sgf.specs.ReadInC.{ignored_of, ReadInC};
ghost use Rattle.c_tokens.specs.Tokens.{TrimIs, TokenIs, ValueIs};
ghost use Rattle.tables.specs.Memory.{memory};
ghost use Rattle.c_version.specs.Version.{version};

use c_answers::{SgfDisplay, SgfEdit, SgfGoValue, SgfReading, SgfSpan, SgfWriting};
use c_tokens::{SgfToken, SgfTrim, SgfValue};
use go_shape::Shape;
use tables::{Counts, Reason};
use value_display::Kind;

// The version of the library: major * 65536 + minor * 256 + patch.
pub fn sgf_version() -> u32
    ensures { result ≡ version }
{
    c_version::number()
}

// Is the text UTF-8, and what does trimming keep of it.
pub fn sgf_trim(text: &[u8]) -> SgfTrim
    ensures { TrimIs (trimmed text.now) result.number result.place result.first result.last }
{
    c_tokens::trim(text)
}

// The next token from a place on.
pub fn sgf_token(text: &[u8], at: usize) -> SgfToken
    ensures { TokenIs at (next_at text.now at) result.kind result.number result.from result.opens result.to }
{
    c_tokens::token(text, at)
}

// The value of a property whose `[` stands at a place.
pub fn sgf_next_value(text: &[u8], at: usize) -> SgfValue
    ensures { ValueIs at (value_step_at text.now at) result.kind result.from result.to result.next }
{
    c_tokens::next_value(text, at)
}

// Reads a text into the lent tables, strictly. Settings that a profile stores change no reading: those of the two retired switches come back in the answer.
pub fn sgf_read_strict(
    text: &[u8],
    settings: u32,
    trees: &mut [u32],
    nodes: &mut [u32],
    properties: &mut [u32],
    values: &mut [u32],
) -> SgfReading
    ensures { ReadInC (ignored_of settings) (read_strict text.now)
        (lent trees.old nodes.old properties.old values.old)
        (lent trees.new nodes.new properties.new values.new)
        result }
{
    c_answers::reading_in_c(
        settings % 4,
        reader::read_strict(text, trees, nodes, properties, values),
    )
}

// Reads a text into the lent tables, leniently: as far as the text can be read. Settings that a profile stores change no reading: those of the two retired switches come back in the answer.
pub fn sgf_read_lenient(
    text: &[u8],
    settings: u32,
    trees: &mut [u32],
    nodes: &mut [u32],
    properties: &mut [u32],
    values: &mut [u32],
) -> SgfReading
    ensures { ReadInC (ignored_of settings) (read_lenient text.now)
        (lent trees.old nodes.old properties.old values.old)
        (lent trees.new nodes.new properties.new values.new)
        result }
{
    c_answers::lenient_in_c(
        settings % 4,
        reader::read_lenient(text, trees, nodes, properties, values),
    )
}

// Number 0 where the tables fit the first `used` bytes of the text, else 19.
pub fn sgf_fits(
    text: &[u8],
    used: usize,
    counts: Counts,
    trees: &[u32],
    nodes: &[u32],
    properties: &[u32],
    values: &[u32],
) -> u32
    ensures { result ≡ fits_in_c (Fit
        (memory text.now used counts trees.now nodes.now properties.now values.now)) }
{
    if fit::fits(text, used, counts, trees, nodes, properties, values) {
        return 0;
    }
    19
}

// The span of value k.
pub fn sgf_value(
    text: &[u8],
    used: usize,
    counts: Counts,
    trees: &[u32],
    nodes: &[u32],
    properties: &[u32],
    values: &[u32],
    k: usize,
) -> SgfSpan
    ensures { result ≡ span_in_c (accessed
        (memory text.now used counts trees.now nodes.now properties.now values.now) k) }
{
    c_answers::span_in_c(ask_value::access(text, used, counts, trees, nodes, properties, values, k))
}

// The kind of display by its number.
fn kind_of(kind: u32) -> Kind
    ensures { result ≡ display_kind kind }
{
    if kind == 0 {
        return Kind::Text;
    }
    Kind::SimpleText
}

// Displays value k in the output: kind 0 Text, any other SimpleText.
pub fn sgf_display(
    text: &[u8],
    used: usize,
    counts: Counts,
    trees: &[u32],
    nodes: &[u32],
    properties: &[u32],
    values: &[u32],
    k: usize,
    kind: u32,
    out: &mut [u8],
) -> SgfDisplay
    ensures { DisplayInC
        (memory text.now used counts trees.now nodes.now properties.now values.now)
        k (display_kind kind) out.old out.new result }
{
    c_answers::display_in_c(ask::display(
        text,
        used,
        counts,
        trees,
        nodes,
        properties,
        values,
        k,
        kind_of(kind),
        out,
    ))
}

// Displays a raw value in the output without a record, for callers whose tables are known to fit, or who have none.
pub fn sgf_display_value(kind: u32, raw: &[u8], out: &mut [u8]) -> SgfDisplay
    ensures { RawInC (display_kind kind) raw.now out.old out.new result }
{
    c_answers::value_in_c(value_display::display(kind_of(kind), raw, out))
}

// The number of a refusal, 0 for none.
fn refusal_number(refusal: Option<Reason>) -> u32
    ensures { result ≡ refusal_number refusal }
{
    match refusal {
        None => 0,
        Some(reason) => u32::from(reason),
    }
}

// The Go value of property p; "other" and no points where it is refused.
pub fn sgf_go_value(
    text: &[u8],
    used: usize,
    counts: Counts,
    trees: &[u32],
    nodes: &[u32],
    properties: &[u32],
    values: &[u32],
    p: usize,
) -> SgfGoValue
    ensures { result ≡ go_answer_in_c (go_answer
        (memory text.now used counts trees.now nodes.now properties.now values.now) p) }
{
    let answer = ask::go_value(text, used, counts, trees, nodes, properties, values, p);
    let refusal = answer.refusal;
    let go = answer.go;
    c_answers::go_in_c(refusal_number(refusal), go)
}

// What a property takes in a tree with this rule: nothing that is read where that is none of Go's.
fn shape_in(rule: u32, identifier: &[u8]) -> Shape
    ensures { result ≡ pick (is_go rule) (shape_of (read_identifier identifier.now)) Unread }
{
    if !((rule == 0) | (rule == 2)) {
        return Shape::Unread;
    }
    go_shape::shape_of(identifier)
}

// The Go value of a property by its parts, for tables that are known to fit: the rule of its tree, its identifier, and the rows of its values.
pub fn sgf_go_by_rule(
    rule: u32,
    identifier: &[u8],
    text: &[u8],
    values: &[u32],
    first: usize,
    count: usize,
) -> SgfGoValue
    ensures { result ≡ go_in_c 0 (go_value rule (read_identifier identifier.now)
        (values_at text.now values.now first count)) }
{
    let shape = shape_in(rule, identifier);
    if let Shape::ManyPoints = shape {
        return c_answers::go_in_c(0, go::set::read_points(text, values, first, count));
    }
    c_answers::unmarked_in_c(go::value::value_by(rule, shape, text, values, first, count))
}

// Writes the record into the output, or changes nothing: 19, 15, 14.
pub fn sgf_write(
    text: &[u8],
    used: usize,
    counts: Counts,
    trees: &[u32],
    nodes: &[u32],
    properties: &[u32],
    values: &[u32],
    out: &mut [u8],
) -> SgfWriting
    ensures { WriteInC
        (memory text.now used counts trees.now nodes.now properties.now values.now)
        out.old out.new result }
{
    c_answers::writing_in_c(serialize::write(
        text, used, counts, trees, nodes, properties, values, out,
    ))
}

// Replaces value k by new bytes in place, or changes nothing: 19, 16, 17, 2, 18, 1, 14.
pub fn sgf_edit(
    text: &mut [u8],
    used: usize,
    counts: Counts,
    trees: &[u32],
    nodes: &[u32],
    properties: &mut [u32],
    values: &mut [u32],
    k: usize,
    replacement: &[u8],
) -> SgfEdit
    ensures { EditInC
        (memory text.old used counts trees.now nodes.now properties.old values.old)
        (memory text.new used counts trees.now nodes.now properties.new values.new)
        k replacement.now result }
{
    let edited = edit::edit(
        text,
        used,
        counts,
        trees,
        nodes,
        properties,
        values,
        k,
        replacement,
    );
    c_answers::edit_in_c(counts, edited)
}
