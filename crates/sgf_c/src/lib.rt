// The C library: each function of include/sgf.h, over the function of the same name in crates/sgf, with its clauses.
#![tactic(auto)]

pub mod index; // index.rt: the property index, simple values
pub mod escape;
pub mod feeds; // feeds.rt: corrections over the air
pub mod boards;
pub mod by_blocks;
pub mod names; // names.rt: an identifier by its read letters
pub mod length; // length.rt: the length of a writing
pub mod season;
pub mod size; // size.rt: the board size of a tree
pub mod explain;
pub mod salvaging;

ghost use Rattle.std.specs.Prelude.{◌≡◌};
ghost use Rattle.lexer_scan.specs.Scan.{value_step_at};
ghost use Rattle.lexer.specs.Step.{next_at};
ghost use Rattle.text_utf8.specs.Trim.{trimmed};
ghost use Rattle.parser.specs.Read.{read_strict, read_lenient};
ghost use Rattle.reader.specs.Lent.{lent};
ghost use Rattle.fit.specs.Fit.{Fit};
ghost use Rattle.ask_value.specs.Access.{accessed};
ghost use Rattle.parts.specs.Rows.{values_at};
ghost use Rattle.go.specs.Value.{go_value};
ghost use Rattle.ask.specs.Ask.{go_answer};
ghost use Rattle.values.specs.Read.{read_identifier};
ghost use Rattle.c_answers.specs.Structs.{span_in_c, go_in_c};
ghost use Rattle.sgf.specs.ChangeInC.{WriteInC, EditInC};
ghost use Rattle.sgf.specs.AskInC.{display_kind, fits_in_c, go_answer_in_c, DisplayInC, RawInC};
ghost use Rattle.sgf.specs.ReadInC.{ignored_of, ReadInC};
ghost use Rattle.c_tokens.specs.Tokens.{TrimIs, TokenIs, ValueIs};
ghost use Rattle.tables.specs.Memory.{memory};
ghost use Rattle.c_version.specs.Version.{version};

use c_answers::{SgfDisplay, SgfEdit, SgfGoValue, SgfReading, SgfSpan, SgfWriting};
use c_tokens::{SgfToken, SgfTrim, SgfValue};
use tables::Counts;

// The version of the library: major * 65536 + minor * 256 + patch.
#[unsafe(no_mangle)]
pub extern "C" fn sgf_version() -> u32
    ensures { result ≡ version }
{
    sgf::sgf_version()
}

// Is the text UTF-8, and what does trimming keep of it.
#[unsafe(no_mangle)]
pub extern "C" fn sgf_trim(text: &[u8]) -> SgfTrim
    ensures { TrimIs (trimmed text.now) result.number result.place result.first result.last }
{
    sgf::sgf_trim(text)
}

// The next token from a place on.
#[unsafe(no_mangle)]
pub extern "C" fn sgf_token(text: &[u8], at: usize) -> SgfToken
    ensures { TokenIs at (next_at text.now at) result.kind result.number result.from result.opens result.to }
{
    sgf::sgf_token(text, at)
}

// The value of a property whose `[` stands at a place.
#[unsafe(no_mangle)]
pub extern "C" fn sgf_next_value(text: &[u8], at: usize) -> SgfValue
    ensures { ValueIs at (value_step_at text.now at) result.kind result.from result.to result.next }
{
    sgf::sgf_next_value(text, at)
}

// Reads a text into the lent tables, strictly. Settings that a profile stores change no reading: those of the two retired switches come back in the answer.
#[unsafe(no_mangle)]
pub extern "C" fn sgf_read_strict(
    text: &[u8],
    settings: u32,
    trees: &mut [u32],
    nodes: &mut [u32],
    properties: &mut [u32],
    values: &mut [u32],
) -> SgfReading
    ensures { ReadInC (ignored_of settings) (read_strict text.now)
        (lent trees.old nodes.old properties.old values.old)
        (lent trees.new nodes.new properties.new values.new)
        result }
{
    sgf::sgf_read_strict(text, settings, trees, nodes, properties, values)
}

// Reads a text into the lent tables, leniently: as far as the text can be read. Settings that a profile stores change no reading: those of the two retired switches come back in the answer.
#[unsafe(no_mangle)]
pub extern "C" fn sgf_read_lenient(
    text: &[u8],
    settings: u32,
    trees: &mut [u32],
    nodes: &mut [u32],
    properties: &mut [u32],
    values: &mut [u32],
) -> SgfReading
    ensures { ReadInC (ignored_of settings) (read_lenient text.now)
        (lent trees.old nodes.old properties.old values.old)
        (lent trees.new nodes.new properties.new values.new)
        result }
{
    sgf::sgf_read_lenient(text, settings, trees, nodes, properties, values)
}

// Number 0 where the tables fit the first `used` bytes of the text, else 19.
#[unsafe(no_mangle)]
pub extern "C" fn sgf_fits(
    text: &[u8],
    used: usize,
    counts: Counts,
    trees: &[u32],
    nodes: &[u32],
    properties: &[u32],
    values: &[u32],
) -> u32
    ensures { result ≡ fits_in_c (Fit
        (memory text.now used counts trees.now nodes.now properties.now values.now)) }
{
    sgf::sgf_fits(text, used, counts, trees, nodes, properties, values)
}

// The span of value k.
#[unsafe(no_mangle)]
pub extern "C" fn sgf_value(
    text: &[u8],
    used: usize,
    counts: Counts,
    trees: &[u32],
    nodes: &[u32],
    properties: &[u32],
    values: &[u32],
    k: usize,
) -> SgfSpan
    ensures { result ≡ span_in_c (accessed
        (memory text.now used counts trees.now nodes.now properties.now values.now) k) }
{
    sgf::sgf_value(text, used, counts, trees, nodes, properties, values, k)
}

// Displays value k in the output: kind 0 Text, any other SimpleText.
#[unsafe(no_mangle)]
pub extern "C" fn sgf_display(
    text: &[u8],
    used: usize,
    counts: Counts,
    trees: &[u32],
    nodes: &[u32],
    properties: &[u32],
    values: &[u32],
    k: usize,
    kind: u32,
    out: &mut [u8],
) -> SgfDisplay
    ensures { DisplayInC
        (memory text.now used counts trees.now nodes.now properties.now values.now)
        k (display_kind kind) out.old out.new result }
{
    sgf::sgf_display(
        text, used, counts, trees, nodes, properties, values, k, kind, out,
    )
}

// Displays a raw value in the output without a record, for callers whose tables are known to fit, or who have none.
#[unsafe(no_mangle)]
pub extern "C" fn sgf_display_value(kind: u32, raw: &[u8], out: &mut [u8]) -> SgfDisplay
    ensures { RawInC (display_kind kind) raw.now out.old out.new result }
{
    sgf::sgf_display_value(kind, raw, out)
}

// The Go value of property p; "other" and no points where it is refused.
#[unsafe(no_mangle)]
pub extern "C" fn sgf_go_value(
    text: &[u8],
    used: usize,
    counts: Counts,
    trees: &[u32],
    nodes: &[u32],
    properties: &[u32],
    values: &[u32],
    p: usize,
) -> SgfGoValue
    ensures { result ≡ go_answer_in_c (go_answer
        (memory text.now used counts trees.now nodes.now properties.now values.now) p) }
{
    sgf::sgf_go_value(text, used, counts, trees, nodes, properties, values, p)
}

// The Go value of a property by its parts, for tables that are known to fit: the rule of its tree, its identifier, and the rows of its values.
#[unsafe(no_mangle)]
pub extern "C" fn sgf_go_by_rule(
    rule: u32,
    identifier: &[u8],
    text: &[u8],
    values: &[u32],
    first: usize,
    count: usize,
) -> SgfGoValue
    ensures { result ≡ go_in_c 0 (go_value rule (read_identifier identifier.now)
        (values_at text.now values.now first count)) }
{
    sgf::sgf_go_by_rule(rule, identifier, text, values, first, count)
}

// Writes the record into the output, or changes nothing: 19, 15, 14.
#[unsafe(no_mangle)]
pub extern "C" fn sgf_write(
    text: &[u8],
    used: usize,
    counts: Counts,
    trees: &[u32],
    nodes: &[u32],
    properties: &[u32],
    values: &[u32],
    out: &mut [u8],
) -> SgfWriting
    ensures { WriteInC
        (memory text.now used counts trees.now nodes.now properties.now values.now)
        out.old out.new result }
{
    sgf::sgf_write(text, used, counts, trees, nodes, properties, values, out)
}

// Replaces value k by new bytes in place, or changes nothing: 19, 16, 17, 2, 18, 1, 14.
#[unsafe(no_mangle)]
pub extern "C" fn sgf_edit(
    text: &mut [u8],
    used: usize,
    counts: Counts,
    trees: &[u32],
    nodes: &[u32],
    properties: &mut [u32],
    values: &mut [u32],
    k: usize,
    replacement: &[u8],
) -> SgfEdit
    ensures { EditInC
        (memory text.old used counts trees.now nodes.now properties.old values.old)
        (memory text.new used counts trees.now nodes.now properties.new values.new)
        k replacement.now result }
{
    sgf::sgf_edit(
        text,
        used,
        counts,
        trees,
        nodes,
        properties,
        values,
        k,
        replacement,
    )
}
