// The brackets of nodes.
ghost use Rattle.std.specs.Prelude.{◌≡◌};
ghost use Rattle.store_bytes.specs.LocalsWrote.{Wrote};
ghost use Rattle.serialize.specs.Locals.{Placed, Above};
ghost use Rattle.serialize.specs.LocalsWalk.{in_brackets, end_text, start_text, ends_before};

use store_bytes::put_byte;

// Whether node k stands in brackets.
fn in_brackets(nodes: &[u32], k: usize) -> bool
    requires { Placed nodes.now k }
    ensures { result ≡ in_brackets nodes.now k }
{
    let parent = nodes[k * tables::NODE_STRIDE];
    if parent == tables::NONE {
        return true;
    }
    if lists::wide(nodes[lists::wide(parent) * tables::NODE_STRIDE + tables::NODE_CHILD]) != k {
        return true;
    }
    nodes[k * tables::NODE_STRIDE + tables::NODE_SIBLING] != tables::NONE
}

// The start of node k.
pub fn put_start(out: &mut [u8], at: usize, nodes: &[u32], k: usize) -> usize
    requires { Placed nodes.now k }
    ensures { Wrote (start_text nodes.now k) out.old at out.new result }
{
    if in_brackets(nodes, k) {
        return put_byte(out, at, b'(');
    }
    at
}

// Its end.
fn put_end(out: &mut [u8], at: usize, nodes: &[u32], k: usize) -> usize
    requires { Placed nodes.now k }
    ensures { Wrote (end_text nodes.now k) out.old at out.new result }
{
    if in_brackets(nodes, k) {
        return put_byte(out, at, b')');
    }
    at
}

// The ends between node k - 1 and a node whose parent is p, by the climb from k - 1 to p; none: all ends.
pub fn put_ends(out: &mut [u8], at: usize, nodes: &[u32], k: usize, p: u32) -> usize
    requires { Above nodes.now k p }
    ensures { Wrote (ends_before nodes.now k p) out.old at out.new result }
{
    if k == 0 {
        return at;
    }
    let top = lists::wide(p);
    let mut j = k - 1;
    if j == top {
        return at;
    }
    let mut to = at;
    loop {
        to = put_end(out, to, nodes, j);
        let up = lists::wide(nodes[j * tables::NODE_STRIDE]);
        if up == top {
            return to;
        }
        j = up;
    }
}
