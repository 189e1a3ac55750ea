// The writing, node by node along the links: a tree is a node in brackets without parent.
ghost use Rattle.std.specs.Prelude.{◌≡◌, false, ℕ, suc, ◌/◌, ◌<◌, ◌≤◌, eqb, length};
ghost use Rattle.store_bytes.specs.LocalsWrote.{Wrote};
ghost use Rattle.lists.specs.Pick.{pick};
ghost use Rattle.tables.specs.Numbers.{none};
ghost use Rattle.tables.specs.Columns.{node_stride, parent_at};
ghost use Rattle.serialize.specs.Locals.{EndHeld, NodeHeld, NodesHeld};
ghost use Rattle.serialize.specs.LocalsWalk.{roots_below, corner_end, type_told, rule_told, node_by, links_text};

use go_size::RootSize;

// How many of the first k + 1 nodes have no parent, where `roots` of the first k have none.
fn roots_with(nodes: &[u32], k: usize, roots: usize) -> usize
    requires { (k < length nodes.now / node_stride) × (roots ≤ k) × (roots ≡ roots_below nodes.now k) }
    ensures { (result ≡ roots_below nodes.now (suc k)) × (result ≤ suc k) }
{
    if nodes[k * tables::NODE_STRIDE] == tables::NONE {
        return roots + 1;
    }
    roots
}

// Whether value v may read as `tt`, by its last byte and its length. Few end so: the last byte is asked first.
fn may_corner(text: &[u8], values: &[u32], v: usize) -> bool
    requires { EndHeld text.now values.now v }
    ensures { result ≡ corner_end text.now values.now v }
{
    let end = lists::wide(values[v * tables::VALUE_STRIDE + tables::VALUE_END]);
    let last = text[end - 1];
    if (last == b't') | (last == b'\\') {
        let start = lists::wide(values[v * tables::VALUE_STRIDE]);
        return end - start <= 5;
    }
    false
}

// Whether one of n values may. Where none may, both rules of Go write the same.
pub fn any_corner(text: &[u8], values: &[u32], n: usize) -> bool
    requires { (v : ℕ) → v < n → EndHeld text.now values.now v }
    ensures { result ≡ false → (v : ℕ) → v < n → corner_end text.now values.now v ≡ false }
{
    let mut v: usize = 0;
    while v < n {
        if may_corner(text, values, v) {
            return true;
        }
        v += 1;
    }
    false
}

// The game type of tree r; where the record is mended, the one that its root keeps.
fn type_told(
    mends: bool,
    text: &[u8],
    trees: &[u32],
    nodes: &[u32],
    properties: &[u32],
    values: &[u32],
    r: usize,
) -> u32
    ensures { result ≡ type_told mends
        text.now trees.now nodes.now properties.now values.now r }
{
    if mends {
        return salvage_rows::kept_type(text, trees, nodes, properties, values, r);
    }
    fit_rule::game_at(trees, r)
}

// The rule of tree r: its size is asked where one of the values may read as `tt`.
fn rule_told(
    corners: bool,
    mends: bool,
    text: &[u8],
    trees: &[u32],
    nodes: &[u32],
    properties: &[u32],
    values: &[u32],
    r: usize,
) -> u32
    ensures { result ≡ rule_told corners mends
        text.now trees.now nodes.now properties.now values.now r }
{
    let game = type_told(mends, text, trees, nodes, properties, values, r);
    if corners {
        let size = fit_rule::size_at(text, trees, nodes, properties, values, r);
        return fit_rule::rule_of(game, size);
    }
    fit_rule::rule_of(game, RootSize::Absent)
}

// The rule at node k: asked at a root, which is that of this tree; else that of the node before. Most often the type says it, and nothing else is lent.
fn rule_with(
    corners: bool,
    mends: bool,
    text: &[u8],
    trees: &[u32],
    nodes: &[u32],
    properties: &[u32],
    values: &[u32],
    k: usize,
    tree: usize,
    rule: u32,
) -> u32
    requires { k < length nodes.now / node_stride }
    ensures { result ≡ pick (eqb (parent_at nodes.now k) none)
        (rule_told corners mends
        text.now trees.now nodes.now properties.now values.now tree) rule }
{
    if nodes[k * tables::NODE_STRIDE] == tables::NONE {
        if corners | mends {
            return rule_told(corners, mends, text, trees, nodes, properties, values, tree);
        }
        let game = fit_rule::game_at(trees, tree);
        return fit_rule::rule_of(game, RootSize::Absent);
    }
    rule
}

// Node k of a tree with this rule: the ends before it, its start, `;` and its properties.
fn put_node(
    out: &mut [u8],
    at: usize,
    text: &[u8],
    nodes: &[u32],
    properties: &[u32],
    values: &[u32],
    rule: u32,
    mends: bool,
    k: usize,
) -> usize
    requires { NodeHeld text.now nodes.now properties.now k }
    ensures { Wrote (node_by mends text.now nodes.now properties.now values.now rule k)
        out.old at out.new result }
{
    let ended = crate::brackets::put_ends(out, at, nodes, k, nodes[k * tables::NODE_STRIDE]);
    let started = crate::brackets::put_start(out, ended, nodes, k);
    let to = store_bytes::put_byte(out, started, b';');
    crate::property::put_properties(out, to, text, nodes, properties, values, rule, mends, k)
}

// All n nodes of a record, or of the mended one.
pub fn put_all(
    out: &mut [u8],
    text: &[u8],
    trees: &[u32],
    nodes: &[u32],
    n: usize,
    properties: &[u32],
    values: &[u32],
    corners: bool,
    mends: bool,
) -> usize
    requires { NodesHeld text.now nodes.now properties.now n × (corners ≡ false → (k : ℕ) → k < n
        → node_by mends text.now nodes.now properties.now values.now 0 k ≡ node_by mends text.now nodes.now properties.now values.now 2 k) }
    ensures { Wrote
        (links_text mends text.now trees.now nodes.now properties.now values.now n)
        out.old 0 out.new result }
{
    let mut to: usize = 0;
    let mut roots: usize = 0;
    let mut rule: u32 = 0;
    let mut k: usize = 0;
    while k < n {
        rule = rule_with(
            corners, mends, text, trees, nodes, properties, values, k, roots, rule,
        );
        roots = roots_with(nodes, k, roots);
        to = put_node(out, to, text, nodes, properties, values, rule, mends, k);
        k += 1;
    }
    crate::brackets::put_ends(out, to, nodes, n, tables::NONE)
}
