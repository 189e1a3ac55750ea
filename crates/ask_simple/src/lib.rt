// The simple value of a property of a record in memory, by number.
#![tactic(auto)]

ghost use Rattle.std.specs.Prelude.{◌≡◌, ◌-◌};
ghost use Rattle.values.specs.Read.{read_identifier};
ghost use Rattle.parts.specs.Rows.{values_at};
ghost use Rattle.ff4_values.specs.Simple.{simple_value};
ghost use Rattle.tables.specs.Columns.{game_at, first_val_at, val_count_at};
ghost use Rattle.tables.specs.Memory.{memory};
ghost use Rattle.tables.specs.LocalsNames.{NameHeld};
ghost use Rattle.ask.specs.Locals.{Rooted, tree_from, name_at};
ghost use Rattle.ask_simple.specs.AskSimple.{simple_answer};

use ff4_values::Simple;
use tables::{Counts, Reason};

// The game type of the tree that has property p: of the last whose root's first property is not behind it.
fn game_of(trees: &[u32], m: usize, nodes: &[u32], p: usize) -> u32
    requires { Rooted m trees.now nodes.now }
    ensures { result ≡ game_at trees.now (tree_from trees.now nodes.now p 0 (m - 1)) }
{
    let mut r: usize = 0;
    while r + 1 < m {
        let root = lists::wide(trees[(r + 1) * tables::TREE_STRIDE]);
        if p < lists::wide(nodes[root * tables::NODE_STRIDE + tables::NODE_FIRST]) {
            return trees[r * tables::TREE_STRIDE + tables::TREE_GAME];
        }
        r += 1;
    }
    trees[r * tables::TREE_STRIDE + tables::TREE_GAME]
}

// The simple value of property p in a tree with this game type.
fn value_of(game: u32, text: &[u8], properties: &[u32], values: &[u32], p: usize) -> Simple
    requires { NameHeld text.now properties.now p }
    ensures { result ≡ simple_value game (read_identifier (name_at text.now properties.now p))
        (values_at text.now values.now (first_val_at properties.now p) (val_count_at properties.now p)) }
{
    let start = lists::wide(properties[p * tables::PROPERTY_STRIDE]);
    let end = lists::wide(properties[p * tables::PROPERTY_STRIDE + tables::PROPERTY_END]);
    let first = lists::wide(properties[p * tables::PROPERTY_STRIDE + tables::PROPERTY_FIRST]);
    let count = lists::wide(properties[p * tables::PROPERTY_STRIDE + tables::PROPERTY_COUNT]);
    ff4_values::simple_value(game, &text[start..end], text, values, first, count)
}

// The simple value of property p, or why it is not given: 19, 16.
pub fn simple_value(
    text: &[u8],
    used: usize,
    counts: Counts,
    trees: &[u32],
    nodes: &[u32],
    properties: &[u32],
    values: &[u32],
    p: usize,
) -> Result<Simple, Reason>
    ensures { result ≡ simple_answer
        (memory text.now used counts trees.now nodes.now properties.now values.now) p }
{
    if !fit::fits(text, used, counts, trees, nodes, properties, values) {
        return Err(Reason::NotFitting);
    }
    if counts.properties <= p {
        return Err(Reason::NoSuchNumber);
    }
    let game = game_of(trees, counts.trees, nodes, p);
    let simple = value_of(game, &text[..used], properties, values, p);
    Ok(simple)
}
