// The way from a root down to a node, one node at a time and without memory: by first children and next siblings.
#![tactic(auto)]

ghost use Rattle.std.specs.Prelude.{◌≡◌};
ghost use Rattle.board_path.specs.LocalsNext.{NextIs};

// From a node on the way to node k, the next one: the last child that is not behind k. The node itself where it has no child.
pub fn next_on(nodes: &[u32], at: usize, k: usize) -> usize
    ensures { NextIs nodes.now at k result }
{
    let rows = nodes.len() / tables::NODE_STRIDE;
    if rows <= at {
        return at;
    }
    let first = lists::wide(nodes[at * tables::NODE_STRIDE + tables::NODE_CHILD]);
    if rows <= first {
        return at;
    }
    let mut c = first;
    // A loop: c follows the siblings.
    loop {
        let next = lists::wide(nodes[c * tables::NODE_STRIDE + tables::NODE_SIBLING]);
        if next <= c {
            return c;
        }
        if k < next {
            return c;
        }
        if rows <= next {
            return c;
        }
        c = next;
    }
}
