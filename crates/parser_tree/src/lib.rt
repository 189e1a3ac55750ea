// The tree of one slice, read from the tokens from a place on into the lent tables, strict or lenient. One token a turn, each byte scanned once where reading is strict.
#![tactic(auto)]

ghost use Rattle.std.specs.Prelude.{◌≡◌, true, [], ◌∷◌, ◌+◌, ◌*◌, ◌≤◌, ◌<◌, length, set};
ghost use Rattle.lists.specs.Put.{PutWhole};
ghost use Rattle.tables.specs.Numbers.{text_limit, depth_limit, none};
ghost use Rattle.tables.specs.Columns.{node_stride};
ghost use Rattle.parser_tree.specs.LocalsTree.{slice_left, in_reach, tree_left};
ghost use Rattle.parser_tree.specs.LocalsWalks.{Reach, LeftIs};
ghost use Rattle.parser_tree.specs.LocalsTurns.{row_limit, Small, first_state, shut_at, state_after_end, noded, TakenIs, AddIs, BehindIs, RootIs, StopIs};

use lexer::Step;
use lexer_scan::ValueStep;
use parser_step::{Act, State};
use tables::{NODE_STRIDE, NONE, PROPERTY_STRIDE, Reason, TEXT_LIMIT, VALUE_STRIDE};

// The next row of the values, and where the values end.
#[derive(Clone, Copy)]
struct Taken {
    next: usize,
    end: usize,
}

// Behind a start or an end: no property may follow.
fn shut(mut w: State, at: usize, depth: usize) -> State
    ensures { result ≡ shut_at w at depth }
{
    w.at = at;
    w.depth = depth;
    w.follows = false;
    w
}

// A start: the current list goes on the stack.
fn start(w: State, i: usize, stack: &mut [u32; 1024]) -> State
    requires { (w.depth < 1024) × (i < text_limit) }
    ensures { (result ≡ shut_at w (i + 1) (w.depth + 1)) × (stack.new ≡ set stack.old w.depth w.cur) }
{
    let depth = w.depth;
    stack[depth] = w.cur;
    shut(w, i + 1, depth + 1)
}

// An end that leaves a tree open: the list on top of the stack is current again.
fn end(mut w: State, i: usize, stack: &[u32; 1024]) -> State
    requires { (0 < w.depth) × (w.depth ≤ 1024) × (i < text_limit) }
    ensures { result ≡ state_after_end w i stack.now }
{
    let depth = w.depth - 1;
    w.cur = stack[depth];
    shut(w, i + 1, depth)
}

// A node: its row, without links, properties and depth. Its own list becomes current.
fn node(mut w: State, i: usize, nodes: &mut [u32]) -> State
    requires { Small w × (i < text_limit) }
    ensures { (result ≡ noded w i)
        × PutWhole nodes.old (w.nodes * node_stride) (w.cur ∷ none ∷ none ∷ w.props ∷ 0 ∷ 0 ∷ []) nodes.new }
{
    store_numbers::put(
        nodes,
        w.nodes * NODE_STRIDE,
        [w.cur, NONE, NONE, w.props as u32, 0, 0],
    );
    w.at = i + 1;
    w.cur = w.nodes as u32;
    w.nodes += 1;
    w.first = w.props;
    w.follows = true;
    w
}

// The values that stand from a place on, as rows from `v0` on. One that does not close goes to the end of the text.
fn take_values(s: &[u8], from: usize, v0: usize, vals: &mut [u32]) -> Taken
    requires { (length s.now ≤ text_limit) × (from ≤ length s.now) × (v0 ≤ row_limit) }
    ensures { TakenIs s.now from v0 vals.old vals.new result }
{
    let mut i = from;
    let mut v = v0;
    // A loop: `i` moves by the value that it finds.
    loop {
        match lexer_scan::next_value(s, i) {
            ValueStep::Value(a, e, next) => {
                store_numbers::put(vals, v * VALUE_STRIDE, [a as u32, e as u32]);
                v += 1;
                i = next;
            }
            ValueStep::NoMore => return Taken { next: v, end: i },
            ValueStep::Unclosed => return Taken {
                next: v,
                end: s.len(),
            },
        }
    }
}

// The property at `i`, whose first `[` is at `k`: its values' rows, its own, and the count of its node.
fn add(
    s: &[u8],
    mut w: State,
    i: usize,
    k: usize,
    nodes: &mut [u32],
    props: &mut [u32],
    vals: &mut [u32],
) -> State
    requires { Small w × (length s.now ≤ text_limit) × (i ≤ k) × (k ≤ length s.now) × (0 < w.nodes) × (w.first ≤ w.props) }
    ensures { AddIs s.now w i k nodes.old props.old vals.old
        result nodes.new props.new vals.new }
{
    let taken = take_values(s, k, w.vals, vals);
    let count = taken.next - w.vals;
    store_numbers::put(
        props,
        w.props * PROPERTY_STRIDE,
        [i as u32, k as u32, w.vals as u32, count as u32],
    );
    w.props += 1;
    let cell = w.nodes * NODE_STRIDE - 2;
    store_numbers::put(nodes, cell, [(w.props - w.first) as u32, 0]);
    w.at = taken.end;
    w.vals = taken.next;
    w
}

// The place behind the slice in which so many trees are open.
pub fn skip_slice(s: &[u8], from: usize, opened: usize) -> usize
    requires { (length s.now ≤ text_limit) × (from ≤ length s.now) × (opened ≤ depth_limit) }
    ensures { BehindIs true s.now from opened result }
{
    let mut at = from;
    let mut depth = opened;
    // A loop: `at` moves by the token that it finds.
    loop {
        match lexer::next_token(s, at) {
            Step::Start(i) => {
                depth += 1;
                at = i + 1;
            }
            Step::End(i) => {
                if depth <= 1 {
                    return i + 1;
                }
                depth -= 1;
                at = i + 1;
            }
            Step::Node(i) => {
                at = i + 1;
            }
            Step::Property(_, _, e) => {
                at = e;
            }
            Step::Refused(_, _) => return at,
            Step::Done => return at,
        }
    }
}

// The tree whose slice ends before `at`. Without any node strict reading refuses it, lenient reading makes an empty root.
fn finish(
    lenient: bool,
    base: usize,
    w: State,
    at: usize,
    nodes: &mut [u32],
) -> Result<(usize, usize, usize, usize), Reason>
    requires { Small w }
    ensures { RootIs lenient base w at nodes.old result nodes.new }
{
    if w.nodes != base {
        return Ok((at, w.nodes, w.props, w.vals));
    }
    if !lenient {
        return Err(Reason::UnexpectedEndOfData);
    }
    store_numbers::put(
        nodes,
        w.nodes * NODE_STRIDE,
        [NONE, NONE, NONE, w.props as u32, 0, 0],
    );
    Ok((at, w.nodes + 1, w.props, w.vals))
}

// The tree stops before a token: strict reading refuses it, lenient reading keeps its nodes and skips the rest of the slice.
fn stop(
    s: &[u8],
    lenient: bool,
    base: usize,
    w: State,
    reason: Reason,
    nodes: &mut [u32],
) -> Result<(usize, usize, usize, usize), Reason>
    requires { Small w × (length s.now ≤ text_limit) × (w.at ≤ length s.now) }
    ensures { StopIs lenient s.now base w reason nodes.old result nodes.new }
{
    if !lenient {
        return Err(reason);
    }
    let at = skip_slice(s, w.at, w.depth);
    finish(true, base, w, at, nodes)
}

// Before the first token.
fn begin(at: usize, nodes: usize, props: usize, vals: usize) -> State
    ensures { result ≡ first_state at nodes props vals }
{
    State {
        at,
        depth: 0,
        cur: NONE,
        nodes,
        props,
        vals,
        first: props,
        follows: false,
    }
}

// Are the numbers within the limits: a text, a place in it, and no more rows than texts have.
fn in_reach(size: usize, from: usize, base: usize, p0: usize, v0: usize) -> bool
    ensures { result ≡ in_reach size from (record { nodes = base; props = p0; vals = v0 }) }
{
    (size <= TEXT_LIMIT)
        & (from <= size)
        & (base <= TEXT_LIMIT + TEXT_LIMIT)
        & (p0 <= TEXT_LIMIT)
        & (v0 <= TEXT_LIMIT)
}

// The same as `walk_tree`, within the limits.
fn walk_slice(
    s: &[u8],
    from: usize,
    lenient: bool,
    base: usize,
    p0: usize,
    v0: usize,
    nodes: &mut [u32],
    props: &mut [u32],
    vals: &mut [u32],
) -> Result<(usize, usize, usize, usize), Reason>
    requires { Reach s.now from base p0 v0 }
    ensures { LeftIs (slice_left lenient s.now from (record { nodes = base; props = p0; vals = v0 })
        (record { nodes = nodes.entry.now; props = props.old; vals = vals.old }))
        lenient s.now from base p0 v0 nodes.exit.now props.new vals.new result }
{
    let mut stack = [0u32; 1024];
    let mut w = begin(from, base, p0, v0);
    // A loop: `w.at` moves by the token that it finds.
    loop {
        match parser_step::look(s, lenient, base, w, &stack) {
            Act::Start(i) => {
                if w.depth == 1024 {
                    return Err(Reason::TooDeep);
                }
                w = start(w, i, &mut stack);
            }
            Act::End(i) => w = end(w, i, &stack),
            Act::Node(i) => w = node(w, i, nodes),
            Act::Add(i, k) => w = add(s, w, i, k, nodes, props, vals),
            Act::Stop(reason) => return stop(s, lenient, base, w, reason, nodes),
            Act::Over(at) => return finish(lenient, base, w, at, nodes),
        }
    }
}

// The tree of the slice that starts at a place, as rows from `base`, `p0` and `v0` on. Links are left none, depths 0.
pub fn walk_tree(
    s: &[u8],
    from: usize,
    lenient: bool,
    base: usize,
    p0: usize,
    v0: usize,
    nodes: &mut [u32],
    props: &mut [u32],
    vals: &mut [u32],
) -> Result<(usize, usize, usize, usize), Reason>
    ensures { LeftIs (tree_left lenient s.now from (record { nodes = base; props = p0; vals = v0 })
        (record { nodes = nodes.entry.now; props = props.old; vals = vals.old }))
        lenient s.now from base p0 v0 nodes.exit.now props.new vals.new result }
{
    if !in_reach(s.len(), from, base, p0, v0) {
        return Err(Reason::NoRoom);
    }
    walk_slice(s, from, lenient, base, p0, v0, nodes, props, vals)
}
