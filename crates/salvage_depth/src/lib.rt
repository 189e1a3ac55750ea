// The depth of a record's writing, from its node rows alone: mending leaves it as it is. Linear in rows that fit: what climbs leaves a node only once.
#![tactic(auto)]

ghost use Rattle.std.specs.Prelude.{◌≡◌, ◌/◌, ◌-◌, ◌<◌, ◌≤◌, suc, length};
ghost use Rattle.tables.specs.Columns.{node_stride, child_at};
ghost use Rattle.salvage_depth.specs.LocalsDepth.{bracket_at, shut_below, open_at, depth_in};

// The first child of node p, 0 where there is no such row.
fn child_of(nodes: &[u32], p: u32) -> usize
    ensures { result ≡ child_at nodes.now p }
{
    let at = lists::wide(p) * tables::NODE_STRIDE + tables::NODE_CHILD;
    lists::wide(nodes.get(at).copied().unwrap_or(0))
}

// 1 where node k stands in brackets, else 0.
fn bracket(nodes: &[u32], k: usize) -> usize
    requires { k < length nodes.now / node_stride }
    ensures { result ≡ bracket_at nodes.now k }
{
    let parent = nodes[k * tables::NODE_STRIDE];
    if parent == tables::NONE {
        return 1;
    }
    if child_of(nodes, parent) != k {
        return 1;
    }
    if nodes[k * tables::NODE_STRIDE + tables::NODE_SIBLING] == tables::NONE {
        return 0;
    }
    1
}

// How many brackets end between node k and a node behind it whose parent is p; none: all.
fn shut(nodes: &[u32], k: usize, p: usize) -> usize
    requires { k < length nodes.now / node_stride }
    ensures { result ≡ shut_below nodes.now k k p }
{
    let mut count: usize = 0;
    let mut j = k;
    // A while: `j` climbs from a node to its parent.
    while j != p {
        count += bracket(nodes, j);
        let up = lists::wide(nodes[j * tables::NODE_STRIDE]);
        if j <= up {
            return count;
        }
        j = up;
    }
    count
}

// How many are open at node k, where `before` are at the node before it.
fn open_at(nodes: &[u32], k: usize, before: usize) -> usize
    requires { (k < length nodes.now / node_stride) × (before ≤ k) × (0 < k → before ≡ open_at nodes.now (k - 1)) }
    ensures { (result ≡ open_at nodes.now k) × (result ≤ suc k) }
{
    if k == 0 {
        return bracket(nodes, k);
    }
    let ended = shut(nodes, k - 1, lists::wide(nodes[k * tables::NODE_STRIDE]));
    before.saturating_sub(ended) + bracket(nodes, k)
}

// The depth of the writing of n nodes.
pub fn depth_of(nodes: &[u32], n: usize) -> usize
    ensures { result ≡ depth_in nodes.now n }
{
    let rows = n.min(nodes.len() / tables::NODE_STRIDE);
    let mut deepest: usize = 0;
    let mut here: usize = 0;
    for k in 0..rows {
        here = open_at(nodes, k, here);
        deepest = deepest.max(here);
    }
    deepest
}
