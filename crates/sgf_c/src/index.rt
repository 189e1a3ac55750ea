// FF[4]'s property index, and the simple values of its properties.
ghost use Rattle.std.specs.Prelude.{◌≡◌};
ghost use Rattle.values.specs.Read.{read_identifier};
ghost use Rattle.parts.specs.Rows.{values_at};
ghost use Rattle.tables.specs.Memory.{memory};
ghost use Rattle.ff4_index.specs.Listed.{entry_of};
ghost use Rattle.ff4_values.specs.Simple.{simple_value};
ghost use Rattle.ask_simple.specs.AskSimple.{simple_answer};
ghost use Rattle.c_simple.specs.InC.{entry_in_c, simple_in_c, simple_answer_in_c};

use c_simple::{SgfEntry, SgfSimple};
use tables::Counts;

// What FF[4] lists of the property with this identifier; all 0 where it does not list it.
#[unsafe(no_mangle)]
pub extern "C" fn sgf_entry(identifier: &[u8]) -> SgfEntry
    ensures { result ≡ entry_in_c (entry_of (read_identifier identifier.now)) }
{
    sgf::index::sgf_entry(identifier)
}

// The simple value of property p; "other" where it is refused: 19, 16.
#[unsafe(no_mangle)]
pub extern "C" fn sgf_simple_value(
    text: &[u8],
    used: usize,
    counts: Counts,
    trees: &[u32],
    nodes: &[u32],
    properties: &[u32],
    values: &[u32],
    p: usize,
) -> SgfSimple
    ensures { result ≡ simple_answer_in_c (simple_answer
        (memory text.now used counts trees.now nodes.now properties.now values.now) p) }
{
    sgf::index::sgf_simple_value(text, used, counts, trees, nodes, properties, values, p)
}

// The simple value of a property by its parts, for tables that are known to fit: how its tree is read, its identifier, and the rows of its values.
#[unsafe(no_mangle)]
pub extern "C" fn sgf_simple_property(
    rule: u32,
    identifier: &[u8],
    text: &[u8],
    values: &[u32],
    first: usize,
    count: usize,
) -> SgfSimple
    ensures { result ≡ simple_in_c (simple_value rule (read_identifier identifier.now)
        (values_at text.now values.now first count)) }
{
    sgf::index::sgf_simple_property(rule, identifier, text, values, first, count)
}
