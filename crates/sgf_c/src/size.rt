// The board size of a tree.
ghost use Rattle.std.specs.Prelude.{◌≡◌};
ghost use Rattle.tables.specs.Memory.{memory};
ghost use Rattle.fit_rule.specs.Rule.{size_at, rule_at};
ghost use Rattle.c_size.specs.SizeInC.{size_in_c, tree_size_in_c};

use c_size::SgfSize;
use tables::Counts;

// The size and the rule of a tree, or why they are not given: 19, 16.
#[unsafe(no_mangle)]
pub extern "C" fn sgf_size(
    text: &[u8],
    used: usize,
    counts: Counts,
    trees: &[u32],
    nodes: &[u32],
    properties: &[u32],
    values: &[u32],
    tree: usize,
) -> SgfSize
    ensures { result ≡ tree_size_in_c
        (memory text.now used counts trees.now nodes.now properties.now values.now) tree }
{
    sgf::size::sgf_size(text, used, counts, trees, nodes, properties, values, tree)
}

// The same by the rows of the tree, for tables that are known to fit.
#[unsafe(no_mangle)]
pub extern "C" fn sgf_tree_size(
    text: &[u8],
    trees: &[u32],
    nodes: &[u32],
    properties: &[u32],
    values: &[u32],
    tree: usize,
) -> SgfSize
    ensures { result ≡ size_in_c
        (size_at text.now trees.now nodes.now properties.now values.now tree)
        (rule_at text.now trees.now nodes.now properties.now values.now tree) }
{
    sgf::size::sgf_tree_size(text, trees, nodes, properties, values, tree)
}
