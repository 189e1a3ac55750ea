// What the next token of a slice asks for, before anything is done.
#![tactic(auto)]

ghost use Rattle.std.specs.Prelude.{◌≡◌, ◌≤◌, ◌<◌, length, get_or};
ghost use Rattle.lexer_scan.specs.Scan.{values_end_at};
ghost use Rattle.parser_step.specs.LocalsActs.{may_start, unclosed, next_act};

use lexer::Head;
use tables::{NONE, Reason};

// Between two tokens: the next place, how many trees are open, the node whose child list is current, the next row of each table, the first property of the last node; may a property follow.
#[derive(Clone, Copy)]
pub struct State {
    pub at: usize,
    pub depth: usize,
    pub cur: u32,
    pub nodes: usize,
    pub props: usize,
    pub vals: usize,
    pub first: usize,
    pub follows: bool,
}

// What the next token asks for: a start, an end that leaves a tree open, a node, a property; or the tree stops, or its slice ends before a place.
#[derive(Clone, Copy)]
pub enum Act {
    Start(usize),
    End(usize),
    Node(usize),
    Add(usize, usize),
    Stop(Reason),
    Over(usize),
}

// The node at a depth of the stack.
fn peek(stack: &[u32; 1024], d: usize) -> u32
    requires { d < 1024 }
    ensures { result ≡ get_or stack.now d 0 }
{
    stack[d]
}

// Is the list on top of the stack not empty: a node has children exactly where the node after it exists. The walk is never deeper than the stack; the test spares the caller a promise.
pub fn may_open(stack: &[u32; 1024], depth: usize, base: usize, n: usize) -> bool
    ensures { result ≡ may_start base n depth stack.now }
{
    if depth == 0 {
        return true;
    }
    if 1024 < depth {
        return false;
    }
    let x = peek(stack, depth - 1);
    if x == NONE {
        return base < n;
    }
    lists::wide(x) + 1 < n
}

// Does a value of the property not close. Only lenient reading looks: strict reading has looked before.
fn unclosed(s: &[u8], k: usize, lenient: bool) -> bool
    ensures { result ≡ unclosed lenient (values_end_at s.now k) }
{
    if !lenient {
        return false;
    }
    match lexer_scan::values_end(s, k) {
        Some(_) => false,
        None => true,
    }
}

// What the next token asks for.
pub fn look(s: &[u8], lenient: bool, base: usize, w: State, stack: &[u32; 1024]) -> Act
    ensures { result ≡ next_act lenient s.now base w stack.now }
{
    match lexer::next_head(s, w.at) {
        Head::Start(i) => {
            if may_open(stack, w.depth, base, w.nodes) {
                return Act::Start(i);
            }
            Act::Stop(Reason::UnexpectedGameTreeStart)
        }
        Head::End(i) => {
            if w.depth == 0 {
                return Act::Stop(Reason::UnexpectedGameTreeEnd);
            }
            if w.depth == 1 {
                return Act::Over(i + 1);
            }
            Act::End(i)
        }
        Head::Node(i) => Act::Node(i),
        Head::Name(i, k) => {
            if unclosed(s, k, lenient) {
                return Act::Over(w.at);
            }
            if w.follows {
                return Act::Add(i, k);
            }
            Act::Stop(Reason::UnexpectedProperty)
        }
        Head::Refused(_, _) => Act::Over(w.at),
        Head::Done => Act::Over(w.at),
    }
}
