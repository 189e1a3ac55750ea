// Whether the links of nodes fit: roots, parents, first children, next siblings; the game types; and the depths. Linear in the tables: what climbs leaves a node only once.
#![tactic(auto)]

ghost use Rattle.std.specs.Prelude.{◌≡◌, true, ◌&&◌, ◌/◌, ◌<◌, ◌≤◌, length};
ghost use Rattle.tables.specs.Numbers.{none};
ghost use Rattle.tables.specs.Each.{each};
ghost use Rattle.tables.specs.Columns.{tree_stride, node_stride};
ghost use Rattle.fit_nodes.specs.Locals.{Ruled, NextParent, Climbed};
ghost use Rattle.fit_nodes.specs.Nodes.{roots_right, on_path, parent_right, child_right, sibling_right, game_right, depth_right, nodes_fit, lent_nodes, links_fit};

// Whether `p` is node `from` or an ancestor of it.
fn on_path(nodes: &[u32], from: usize, p: usize) -> bool
    requires { from < length nodes.now / node_stride }
    ensures { result ≡ on_path nodes.now from p }
{
    let mut j = from;
    // A while: j goes on with its parent's number.
    while p < j {
        let parent = nodes[j * tables::NODE_STRIDE];
        if parent == tables::NONE {
            return false;
        }
        let up = lists::wide(parent);
        if j <= up {
            return false;
        }
        j = up;
    }
    j == p
}

// Whether node k's parent is none, k - 1 or an ancestor of k - 1.
fn parent_right(nodes: &[u32], k: usize) -> bool
    requires { k < length nodes.now / node_stride }
    ensures { result ≡ parent_right nodes.now k }
{
    let parent = nodes[k * tables::NODE_STRIDE];
    if parent == tables::NONE {
        return true;
    }
    if k == 0 {
        return false;
    }
    on_path(nodes, k - 1, lists::wide(parent))
}

// Whether node k's depth is right, where its parent is: 0 at a root, else the parent's plus 1.
fn depth_right(nodes: &[u32], k: usize) -> bool
    requires { (k < length nodes.now / node_stride) × (parent_right nodes.now k ≡ true) }
    ensures { result ≡ depth_right nodes.now k }
{
    let parent = nodes[k * tables::NODE_STRIDE];
    let depth = nodes[k * tables::NODE_STRIDE + tables::NODE_DEPTH];
    if parent == tables::NONE {
        return depth == 0;
    }
    let up = lists::wide(parent);
    lists::wide(depth) == lists::wide(nodes[up * tables::NODE_STRIDE + tables::NODE_DEPTH]) + 1
}

// Whether the roots of `m` trees are those of `n` nodes that have no parent, ascending, and the parents and depths of the nodes are right.
fn rows_right(trees: &[u32], m: usize, nodes: &[u32], n: usize) -> bool
    requires { (m ≤ length trees.now / tree_stride) × (n ≤ length nodes.now / node_stride) }
    ensures { result ≡ (roots_right m n trees.now nodes.now
        && each n (parent_right nodes.now) && each n (depth_right nodes.now)) }
{
    let mut r = 0;
    for k in 0..n {
        if !parent_right(nodes, k) {
            return false;
        }
        if !depth_right(nodes, k) {
            return false;
        }
        if nodes[k * tables::NODE_STRIDE] == tables::NONE {
            if r == m {
                return false;
            }
            if lists::wide(trees[r * tables::TREE_STRIDE]) != k {
                return false;
            }
            r += 1;
        }
    }
    r == m
}

// Whether node k's first child is right: it can only be the next node, and is, where k is that one's parent.
fn child_right(nodes: &[u32], n: usize, k: usize) -> bool
    requires { (n ≤ length nodes.now / node_stride) × Ruled nodes.now n × (k < n) }
    ensures { result ≡ child_right nodes.now n k }
{
    let child = nodes[k * tables::NODE_STRIDE + tables::NODE_CHILD];
    let next = k + 1;
    if n <= next {
        return child == tables::NONE;
    }
    if lists::wide(nodes[next * tables::NODE_STRIDE]) != k {
        return child == tables::NONE;
    }
    lists::wide(child) == next
}

// The climb from node k - 1 to the parent `p` of node k: the child of `p` on the way is followed by k, the others by none.
fn climb(nodes: &[u32], n: usize, k: usize, p: u32) -> bool
    requires { (n ≤ length nodes.now / node_stride) × NextParent nodes.now n k p }
    ensures { Climbed nodes.now n k p result }
{
    let mut j = k - 1;
    if j == lists::wide(p) {
        return true;
    }
    // A loop: j goes on with its parent's number.
    loop {
        let parent = nodes[j * tables::NODE_STRIDE];
        let sibling = nodes[j * tables::NODE_STRIDE + tables::NODE_SIBLING];
        if parent == p {
            if p == tables::NONE {
                return sibling == tables::NONE;
            }
            return lists::wide(sibling) == k;
        }
        if sibling != tables::NONE {
            return false;
        }
        j = lists::wide(parent);
    }
}

// Whether first children and next siblings of `n` nodes are right: climbs from each node to the next one's parent, and from the last to the top.
fn kin_right(nodes: &[u32], n: usize) -> bool
    requires { (n ≤ length nodes.now / node_stride) × Ruled nodes.now n }
    ensures { result ≡ (each n (child_right nodes.now n) && each n (sibling_right nodes.now n)) }
{
    if n == 0 {
        return true;
    }
    for k in 1..n {
        if !child_right(nodes, n, k - 1) {
            return false;
        }
        if !climb(nodes, n, k, nodes[k * tables::NODE_STRIDE]) {
            return false;
        }
    }
    if !child_right(nodes, n, n - 1) {
        return false;
    }
    climb(nodes, n, n, tables::NONE)
}

// Whether the game types of `n` trees are 0 or 1.
fn games_right(trees: &[u32], n: usize) -> bool
    requires { n ≤ length trees.now / tree_stride }
    ensures { result ≡ each n (game_right trees.now) }
{
    for k in 0..n {
        if 1 < trees[k * tables::TREE_STRIDE + tables::TREE_GAME] {
            return false;
        }
    }
    true
}

// Whether roots, parents, links, game types and depths fit.
fn nodes_fit(trees: &[u32], nodes: &[u32], counts: tables::Counts) -> bool
    requires { (counts.trees ≤ length trees.now / tree_stride) × (counts.nodes ≤ length nodes.now / node_stride) × (counts.nodes ≤ none) }
    ensures { result ≡ nodes_fit counts trees.now nodes.now }
{
    if !rows_right(trees, counts.trees, nodes, counts.nodes) {
        return false;
    }
    if !kin_right(nodes, counts.nodes) {
        return false;
    }
    games_right(trees, counts.trees)
}

// Whether so many trees and nodes are lent.
fn is_lent(trees: &[u32], nodes: &[u32], counts: tables::Counts) -> bool
    ensures { result ≡ lent_nodes counts trees.now nodes.now }
{
    (counts.trees <= trees.len() / tables::TREE_STRIDE)
        & (counts.nodes <= nodes.len() / tables::NODE_STRIDE)
        & (counts.nodes <= tables::NONE as usize)
}

// Whether so many trees and nodes are lent, and roots, parents, links, game types and depths fit.
pub fn links_fit(trees: &[u32], nodes: &[u32], counts: tables::Counts) -> bool
    ensures { result ≡ links_fit counts trees.now nodes.now }
{
    if !is_lent(trees, nodes, counts) {
        return false;
    }
    nodes_fit(trees, nodes, counts)
}
