// What the mended record makes of a root's GMs, by rows: the game type that is kept, and whether the GMs are removed.
#![tactic(auto)]

ghost use Rattle.std.specs.Prelude.{◌≡◌};
ghost use Rattle.parts.specs.Rows.{values_at};
ghost use Rattle.parts_props.specs.Props.{named_at, properties_at};
ghost use Rattle.parser.specs.Game.{GM};
ghost use Rattle.parser_game.specs.LocalsGame.{type_of};
ghost use Rattle.salvage_rows.specs.LocalsGM.{game_of_values, game_in, bad_in, kept_at};
ghost use Rattle.salvage_rows.specs.Locals.{NextGM};

use tables::Reason;

// The game type that the values of a GM say: exactly one is wanted.
fn one_game(text: &[u8], values: &[u32], first: usize, count: usize) -> Result<u32, Reason>
    ensures { result ≡ type_of (game_of_values (values_at text.now values.now first count)) }
{
    if count != 1 {
        return Err(Reason::InvalidGameType);
    }
    let value = parts::value_at(text, values, first, 0);
    parser_game::game_of(value)
}

// Whether property p reads as GM.
fn is_gm(text: &[u8], properties: &[u32], p: usize) -> bool
    ensures { result ≡ named_at text.now properties.now GM p }
{
    parts_props::is_named(text, properties, p, b"GM")
}

// The first GM of the properties from `from` up to `to`, or `to`.
fn next_gm(text: &[u8], properties: &[u32], from: usize, to: usize) -> usize
    ensures { NextGM text.now properties.now from to result }
{
    for p in from..to {
        if is_gm(text, properties, p) {
            return p;
        }
    }
    from.max(to)
}

// The game type that the properties of `count` rows from `first` on say.
fn game_in(
    text: &[u8],
    properties: &[u32],
    values: &[u32],
    first: usize,
    count: usize,
) -> Result<u32, Reason>
    ensures { result ≡ type_of (game_in (properties_at text.now properties.now values.now first count)) }
{
    let to = first + parts_props::row_count(properties, first, count);
    let p = next_gm(text, properties, first, to);
    if to <= p {
        return Ok(0);
    }
    let q = next_gm(text, properties, p + 1, to);
    if q < to {
        return Err(Reason::UnexpectedProperty);
    }
    let start = lists::wide(properties[p * tables::PROPERTY_STRIDE + tables::PROPERTY_FIRST]);
    let many = lists::wide(properties[p * tables::PROPERTY_STRIDE + tables::PROPERTY_COUNT]);
    one_game(text, values, start, many)
}

// Whether the GMs of `count` rows from `first` on are removed: they give no game type.
pub fn gms_bad(text: &[u8], properties: &[u32], values: &[u32], first: usize, count: usize) -> bool
    ensures { result ≡ bad_in text.now properties.now values.now first count }
{
    match game_in(text, properties, values, first, count) {
        Ok(_) => false,
        Err(_) => true,
    }
}

// The game type that the root of tree r keeps; Go where a row is not there.
pub fn kept_type(
    text: &[u8],
    trees: &[u32],
    nodes: &[u32],
    properties: &[u32],
    values: &[u32],
    r: usize,
) -> u32
    ensures { result ≡ kept_at text.now trees.now nodes.now properties.now values.now r }
{
    if trees.len() / tables::TREE_STRIDE <= r {
        return 0;
    }
    let root = lists::wide(trees[r * tables::TREE_STRIDE]);
    if nodes.len() / tables::NODE_STRIDE <= root {
        return 0;
    }
    let first = lists::wide(nodes[root * tables::NODE_STRIDE + tables::NODE_FIRST]);
    let count = lists::wide(nodes[root * tables::NODE_STRIDE + tables::NODE_COUNT]);
    match game_in(text, properties, values, first, count) {
        Ok(k) => k,
        Err(_) => 0,
    }
}
