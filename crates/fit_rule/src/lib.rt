// The rule of a tree: how its values are read, by its game type and the board size that its root says.
#![tactic(auto)]

ghost use Rattle.std.specs.Prelude.{◌≡◌};
ghost use Rattle.tables.specs.Columns.{game_at};
ghost use Rattle.fit_rule.specs.Rule.{tt_passes, rule_by, size_at, rule_at};

use go_size::RootSize;

// Whether `tt` is a pass where a root says this size.
fn tt_passes(size: RootSize) -> bool
    ensures { result ≡ tt_passes size }
{
    match size {
        RootSize::Absent => true,
        RootSize::Sized(x, y) => (x <= 19) & (y <= 19),
        RootSize::Wrong => false,
    }
}

// The rule of a tree with this game type whose root says this size.
pub fn rule_of(game: u32, size: RootSize) -> u32
    ensures { result ≡ rule_by game size }
{
    if game != 0 {
        return 1;
    }
    if tt_passes(size) {
        return 0;
    }
    2
}

// The game type of tree r; 0 where it has no row.
pub fn game_at(trees: &[u32], r: usize) -> u32
    ensures { result ≡ game_at trees.now r }
{
    if trees.len() / tables::TREE_STRIDE <= r {
        return 0;
    }
    trees[r * tables::TREE_STRIDE + tables::TREE_GAME]
}

// The size that the root of tree r says; absent where a row is not there.
pub fn size_at(
    text: &[u8],
    trees: &[u32],
    nodes: &[u32],
    properties: &[u32],
    values: &[u32],
    r: usize,
) -> RootSize
    ensures { result ≡ size_at text.now trees.now nodes.now properties.now values.now r }
{
    if trees.len() / tables::TREE_STRIDE <= r {
        return RootSize::Absent;
    }
    let root = lists::wide(trees[r * tables::TREE_STRIDE]);
    if nodes.len() / tables::NODE_STRIDE <= root {
        return RootSize::Absent;
    }
    let first = lists::wide(nodes[root * tables::NODE_STRIDE + tables::NODE_FIRST]);
    let count = lists::wide(nodes[root * tables::NODE_STRIDE + tables::NODE_COUNT]);
    go_size::size_in(text, properties, values, first, count)
}

// The rule of tree r, by its rows.
pub fn rule_at(
    text: &[u8],
    trees: &[u32],
    nodes: &[u32],
    properties: &[u32],
    values: &[u32],
    r: usize,
) -> u32
    ensures { result ≡ rule_at text.now trees.now nodes.now properties.now values.now r }
{
    let size = size_at(text, trees, nodes, properties, values, r);
    rule_of(game_at(trees, r), size)
}
