// The shape of a tree, from the tokens of its slice alone: how many nodes it has, how many of them stand in brackets when it is written, how deep it is then, and how
// many bytes its properties take once it is mended.
#![tactic(auto)]

ghost use Rattle.std.specs.Prelude.{◌≡◌, true, ◌+◌, ◌≤◌, ◌<◌, length};
ghost use Rattle.lexer.specs.Token.{lex_at};
ghost use Rattle.lexer.specs.Step.{prop_at};
ghost use Rattle.tables.specs.Numbers.{text_limit};
ghost use Rattle.parser.specs.Game.{props};
ghost use Rattle.salvage_form.specs.Rooted.{root_rule};
ghost use Rattle.salvage_shape.specs.LocalsChain.{sum_in, height_in, chain_height, joined_to, ended_by, brackets_more, cell_at, chain_kept, fresh_of, cells_of, close_all};
ghost use Rattle.salvage_shape.specs.LocalsSum.{name_stays, rule_after};
ghost use Rattle.salvage_shape.specs.LocalsWalk.{FateIs, Arrays, ShapeReady, ShapeIs};

use lexer::Step;
use salvage_form::root::RootRule;
use tables::NONE;

// The most that a sum of heights may be; no tree comes near it.
const HEIGHT_LIMIT: usize = 4294967295;

// What is known of the current node and of the nodes above it in its list. How many children of it are closed, 2 standing for more; the greatest height of
// these; and the height of the first node of the list, which is the greater of `top` and of `plus` with the height of the current node.
#[derive(Clone, Copy)]
struct Chain {
    kids: usize,
    high: usize,
    plus: usize,
    top: usize,
}

// What becomes of a property: its length once it is mended, 0 where it is removed; how many entries the list of changes has of it.
#[derive(Clone, Copy)]
struct Fate {
    bytes: usize,
    listed: usize,
}

// The place behind a slice; how many nodes its tree has, how many stand in brackets; the depth, 1 where there is no node; the lengths of the properties that stay;
// how many entries the list of changes has of its properties and of its end.
#[derive(Clone, Copy)]
pub struct TreeShape {
    pub next: usize,
    pub nodes: usize,
    pub brackets: usize,
    pub depth: usize,
    pub bytes: usize,
    pub listed: usize,
}

// The sum, at most the limit.
fn sum(a: usize, b: usize) -> usize
    ensures { result ≡ sum_in a b }
{
    a.saturating_add(b).min(HEIGHT_LIMIT)
}

// The height of a node by its children.
fn height(kids: usize, high: usize) -> usize
    ensures { result ≡ height_in kids high }
{
    if kids == 0 {
        return 0;
    }
    if kids == 1 {
        return high;
    }
    sum(high, 1)
}

// The height of the first node of a list whose last node is closed.
fn chain_height(c: Chain) -> usize
    ensures { result ≡ chain_height c }
{
    c.top.max(sum(c.plus, height(c.kids, c.high)))
}

// A node comes under the current one: into a new list, or into its list.
fn joined(fresh: bool, c: Chain) -> Chain
    ensures { result ≡ joined_to fresh c }
{
    if fresh {
        return Chain {
            kids: 0,
            high: 0,
            plus: 0,
            top: 0,
        };
    }
    if c.kids == 0 {
        return Chain {
            kids: 0,
            high: 0,
            plus: c.plus,
            top: c.top,
        };
    }
    let plus = sum(c.plus, 1);
    Chain {
        kids: 0,
        high: 0,
        plus,
        top: c.top.max(sum(plus, c.high)),
    }
}

// A list ends: the node e that it stands under has one more child, unless there was no node in it.
fn ended(fresh: bool, c: Chain, e: Chain) -> Chain
    ensures { result ≡ ended_by fresh c e }
{
    if fresh {
        return c;
    }
    let h = chain_height(c);
    if e.kids == 0 {
        return Chain {
            kids: 1,
            high: h,
            plus: e.plus,
            top: e.top,
        };
    }
    Chain {
        kids: 2,
        high: e.high.max(h),
        plus: e.plus,
        top: e.top,
    }
}

// How many more nodes stand in brackets when a node with so many children gets one more.
fn more(kids: usize) -> usize
    ensures { result ≡ brackets_more kids }
{
    if kids == 0 {
        return 0;
    }
    if kids == 1 {
        return 2;
    }
    1
}

// What is kept under a number.
fn load(cells: &[usize; 4096], d: usize) -> Chain
    requires { d < 1024 }
    ensures { result ≡ cell_at cells.now d }
{
    Chain {
        kids: cells[d * 4],
        high: cells[d * 4 + 1],
        plus: cells[d * 4 + 2],
        top: cells[d * 4 + 3],
    }
}

// Keeps the current node where a new list under it gets its first node.
fn keep(cells: &mut [usize; 4096], depth: usize, fresh: bool, c: Chain)
    requires { (depth ≤ 1024) × (fresh ≡ true → 0 < depth) }
    ensures { cells.new ≡ chain_kept fresh cells.old depth c }
{
    if fresh {
        let d = (depth - 1) * 4;
        cells[d] = c.kids;
        cells[d + 1] = c.high;
        cells[d + 2] = c.plus;
        cells[d + 3] = c.top;
    }
}

// The height of what is open, closed.
fn finish(
    marks: &[bool; 1024],
    cells: &[usize; 4096],
    opened: usize,
    fresh0: bool,
    c0: Chain,
) -> usize
    requires { opened ≤ 1024 }
    ensures { result ≡ close_all fresh0 c0 (fresh_of marks.now opened) (cells_of cells.now opened) }
{
    let mut fresh = fresh0;
    let mut c = c0;
    for depth in (0..opened).rev() {
        c = ended(fresh, c, load(cells, depth));
        fresh = marks[depth];
    }
    chain_height(c)
}

// Does a property stay, by its raw identifier.
fn stays(name: &[u8], bad: bool) -> bool
    ensures { result ≡ name_stays bad name.now }
{
    if parts_props::reads_as(name, &name[..0]) {
        return false;
    }
    if bad {
        return !parts_props::reads_as(name, b"GM");
    }
    true
}

// Of the property that starts at i and whose first `[` is at k: its length, and how many entries it has.
fn fate_at(s: &[u8], root: RootRule, i: usize, k: usize) -> Fate
    requires { (length s.now ≤ text_limit) × (i ≤ k) × (k ≤ length s.now) }
    ensures { FateIs root (prop_at s.now i k) result }
{
    let name = &s[i..k];
    if !stays(name, root.bad) {
        return Fate {
            bytes: 0,
            listed: 1,
        };
    }
    let bytes = salvage_form::property_length(s, root.rule, i, k);
    if parts_props::reads_as(name, name) {
        return Fate { bytes, listed: 0 };
    }
    Fate { bytes, listed: 1 }
}

// What holds of the properties of a node that follow a place: of the first node's, what they say; of any other's, the rule so far, and none is removed.
fn node_rule(s: &[u8], at: usize, first: bool, was: RootRule) -> RootRule
    ensures { result ≡ rule_after first (root_rule (props (lex_at s.now at).toks)) was }
{
    if first {
        return salvage_form::root::root_rule(s, at);
    }
    RootRule {
        rule: was.rule,
        bad: false,
    }
}

// The shape of the tree of the slice that starts at a place, its first node numbered `base`. What the arrays hold does not matter, before or after.
pub fn shape_of(
    s: &[u8],
    from: usize,
    base: usize,
    stack: &mut [u32; 1024],
    marks: &mut [bool; 1024],
    cells: &mut [usize; 4096],
) -> TreeShape
    requires { ShapeReady s.now from base × Arrays stack.old marks.old cells.old }
    ensures { ShapeIs s.now from base result × Arrays stack.new marks.new cells.new }
{
    let mut at = from;
    let mut depth: usize = 0;
    let mut cur = NONE;
    let mut n = base;
    let mut follows = false;
    let mut fresh = false;
    let mut brackets: usize = 0;
    let mut c = Chain {
        kids: 0,
        high: 0,
        plus: 0,
        top: 0,
    };
    let mut root = RootRule {
        rule: 0,
        bad: false,
    };
    let mut bytes: usize = 0;
    let mut listed: usize = 0;
    // A loop: `at` moves by the token that it finds.
    loop {
        match lexer::next_token(s, at) {
            Step::Start(i) => {
                if !parser_step::may_open(stack, depth, base, n) {
                    return TreeShape {
                        next: parser_tree::skip_slice(s, at, depth),
                        nodes: n - base,
                        brackets,
                        depth: finish(marks, cells, depth, fresh, c) + 1,
                        bytes,
                        listed: listed + 1,
                    };
                }
                stack[depth] = cur;
                marks[depth] = fresh;
                depth += 1;
                fresh = true;
                follows = false;
                at = i + 1;
            }
            Step::End(i) => {
                if depth <= 1 {
                    return TreeShape {
                        next: i + 1,
                        nodes: n - base,
                        brackets,
                        depth: finish(marks, cells, depth, fresh, c) + 1,
                        bytes,
                        listed: listed + (1 - depth),
                    };
                }
                depth -= 1;
                c = ended(fresh, c, load(cells, depth));
                cur = stack[depth];
                fresh = marks[depth];
                follows = false;
                at = i + 1;
            }
            Step::Node(i) => {
                root = node_rule(s, i + 1, n == base, root);
                keep(cells, depth, fresh, c);
                brackets += more(c.kids);
                c = joined(fresh, c);
                fresh = false;
                cur = n as u32;
                n += 1;
                follows = true;
                at = i + 1;
            }
            Step::Property(i, k, next) => {
                if !follows {
                    return TreeShape {
                        next: parser_tree::skip_slice(s, at, depth),
                        nodes: n - base,
                        brackets,
                        depth: finish(marks, cells, depth, fresh, c) + 1,
                        bytes,
                        listed: listed + 1,
                    };
                }
                let x = fate_at(s, root, i, k);
                bytes += x.bytes;
                listed += x.listed;
                at = next;
            }
            Step::Refused(_, _) => {
                return TreeShape {
                    next: at,
                    nodes: n - base,
                    brackets,
                    depth: finish(marks, cells, depth, fresh, c) + 1,
                    bytes,
                    listed,
                };
            }
            Step::Done => {
                return TreeShape {
                    next: at,
                    nodes: n - base,
                    brackets,
                    depth: finish(marks, cells, depth, fresh, c) + 1,
                    bytes,
                    listed,
                };
            }
        }
    }
}
