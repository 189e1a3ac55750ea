// How long the text is that salvage makes of a text, how deep its trees stand in each other, and how many entries its list has: found over the tokens, without tables.
#![tactic(auto)]

ghost use Rattle.std.specs.Prelude.{◌≡◌, ◌+◌, ◌*◌, ◌≤◌, max, length};
ghost use Rattle.lexer.specs.Token.{lex_at};
ghost use Rattle.tables.specs.Numbers.{text_limit};
ghost use Rattle.salvage_list.specs.Listed.{tail_of};
ghost use Rattle.salvage_list.specs.ListRows.{text_changes};
ghost use Rattle.reader.specs.LocalsKnown.{known_of};
ghost use Rattle.salvage_list.specs.LocalsWalk.{ListReady};
ghost use Rattle.salvage_measure.specs.Measure.{text_measure, WeighedIs};
ghost use Rattle.salvage_measure.specs.LocalsMeasure.{measured, TokensWeighed, SlicesToldFrom, SlicesTold};

use lexer::Step;
use parser::Survey;
use tables::Counts;
use text_utf8::Trimmed;

// How many bytes a text has, and how deep its trees stand in each other.
#[derive(Clone, Copy)]
pub struct Measured {
    pub bytes: usize,
    pub depth: usize,
}

// What salvage makes of a text: its bytes and depth, and how many entries the list of changes has. Where the text has slices, the place of its first token, the end of
// what trimming keeps, and how many slices there are; else 0.
#[derive(Clone, Copy)]
pub struct Weighed {
    pub result: Measured,
    pub changes: usize,
    pub first: usize,
    pub last: usize,
    pub slices: usize,
}

// The greater of two numbers.
fn greater(a: usize, b: usize) -> usize
    ensures { result ≡ max a b }
{
    if a < b {
        return b;
    }
    a
}

// The length of a tree: its own brackets, a `;` for each node, two for each node in brackets, and its properties.
fn tree_length(nodes: usize, brackets: usize, bytes: usize) -> usize
    requires { (nodes ≤ 4194304) × (brackets ≤ 4194304) × (bytes ≤ 4398046511104) }
    ensures { result ≡ 2 + nodes + brackets * 2 + bytes }
{
    2 + nodes + brackets * 2 + bytes
}

// These numbers.
fn together(
    bytes: usize,
    depth: usize,
    changes: usize,
    first: usize,
    last: usize,
    slices: usize,
) -> Weighed
    ensures { (result.result ≡ measured bytes depth) × (result.changes ≡ changes) × (result.first ≡ first) × (result.last ≡ last) × (result.slices ≡ slices) }
{
    Weighed {
        result: Measured {
            bytes: bytes,
            depth: depth,
        },
        changes: changes,
        first: first,
        last: last,
        slices: slices,
    }
}

// How many entries the list has of the first token from a place on, failing or not: one, or none where there is no token.
fn count_tail(s: &[u8], at: usize) -> usize
    ensures { (result ≡ length (tail_of (lex_at s.now at).toks (lex_at s.now at).end)) × (result ≤ 1) }
{
    match lexer::next_token(s, at) {
        Step::Start(_) => 1,
        Step::End(_) => 1,
        Step::Node(_) => 1,
        Step::Property(_, _, _) => 1,
        Step::Refused(_, _) => 1,
        Step::Done => 0,
    }
}

// Of `count` slices from a place on.
fn weigh_slices(s: &[u8], from: usize, count: usize) -> Weighed
    requires { ListReady s.now from count }
    ensures { TokensWeighed (lex_at s.now from) result × SlicesToldFrom s.now from result }
{
    let mut stack = [0u32; 1024];
    let mut marks = [false; 1024];
    let mut cells = [0usize; 4096];
    let mut at = from;
    let mut base: usize = 0;
    let mut bytes: usize = 0;
    let mut depth: usize = 0;
    let mut listed: usize = 0;
    let mut k: usize = 0;
    while k < count {
        let x = salvage_shape::shape_of(s, at, base, &mut stack, &mut marks, &mut cells);
        let nodes = greater(1, x.nodes);
        at = x.next;
        base += nodes;
        bytes += tree_length(nodes, x.brackets, x.bytes);
        depth = greater(depth, x.depth);
        listed += x.listed + (nodes - x.nodes);
        k += 1;
    }
    together(
        bytes,
        depth,
        listed + count_tail(s, at),
        from,
        s.len(),
        count,
    )
}

// Of the tokens from a place on. Where there is no slice, the empty one is written `(;)`.
fn weigh_tokens(s: &[u8], from: usize) -> Weighed
    requires { (length s.now ≤ text_limit) × (from ≤ length s.now) }
    ensures { TokensWeighed (lex_at s.now from) result × SlicesToldFrom s.now from result }
{
    match parser::survey_lenient(s, from) {
        Survey::Refused(_, _) => together(0, 0, 0, 0, 0, 0),
        Survey::Empty => together(3, 1, 1 + count_tail(s, from), 0, 0, 0),
        Survey::Slices(count) => weigh_slices(s, from, count),
    }
}

// Of the text that salvage makes of a text, and of its list; of a text that is refused, of nothing.
pub fn weigh(text: &[u8]) -> Weighed
    ensures { WeighedIs (text_measure text.now) (text_changes text.now) result × SlicesTold text.now result }
{
    if tables::TEXT_LIMIT < text.len() {
        return together(0, 0, 0, 0, 0, 0);
    }
    match text_utf8::trim(text) {
        Trimmed::NotUtf8(_) => together(0, 0, 0, 0, 0, 0),
        Trimmed::Blank => together(3, 1, 1, 0, 0, 0),
        Trimmed::Kept(first, last) => weigh_tokens(&text[..last], first),
    }
}

// The same of a text of which the census has said this: where it counts the rows, the slices are known and not looked for.
pub fn weigh_known(text: &[u8], known: Option<(usize, usize, Counts)>) -> Weighed
    requires { known ≡ known_of text.now }
    ensures { WeighedIs (text_measure text.now) (text_changes text.now) result × SlicesTold text.now result }
{
    match known {
        None => weigh(text),
        Some((first, last, counts)) => weigh_slices(&text[..last], first, counts.trees),
    }
}

// Of the text that salvage makes of a text; of a text that is refused, of nothing.
pub fn measure(text: &[u8]) -> Measured
    ensures { result ≡ text_measure text.now }
{
    let x = weigh(text);
    x.result
}
