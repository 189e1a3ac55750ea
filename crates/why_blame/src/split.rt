// Splitting, explained.
ghost use Rattle.std.specs.Prelude.{◌≡◌, true, false, ltb, Ok, Err};
ghost use Rattle.lists.specs.Pick.{pick};
ghost use Rattle.lexer.specs.Token.{lex_at};
ghost use Rattle.tables.specs.Numbers.{depth_limit};
ghost use Rattle.why_blame.specs.declared.Fact.TheVariants.{TooDeep};
ghost use Rattle.why_blame.specs.Cuts.{first_place, cut_tokens, tokens_cut};
ghost use Rattle.why_blame.specs.LocalsCuts.{ending_of, Seen, StopsBy};
ghost use Rattle.tables.specs.Refusals.{refusal};

use crate::Fact;
use lexer::Step;
use tables::{DEPTH_LIMIT, Refusal};

// Where splitting stops: the depth, the greatest depth, how many slices, the place behind the last of them, where the depth came above the limit, where the next token is looked for, and whether that is an end at depth 0.
#[derive(Clone, Copy)]
struct BlameSplit {
    depth: usize,
    deepest: usize,
    slices: usize,
    behind: usize,
    deep: usize,
    at: usize,
    beyond: bool,
}

// How the tokens end: with the text, or with a fault of the token that starts at a place.
#[derive(Clone, Copy)]
enum Ending {
    Whole,
    Broken(lexer::Fault, usize),
}

// Where the depth came above the limit: as before, or here.
fn first_deep(deepest: usize, depth: usize, deep: usize, here: usize) -> usize
    ensures { result ≡ pick (ltb depth_limit deepest) deep (pick (ltb depth_limit depth) here deep) }
{
    if DEPTH_LIMIT < deepest {
        return deep;
    }
    if DEPTH_LIMIT < depth { here } else { deep }
}

// The tokens from a place on, split as far as an end at depth 0.
fn split_tokens(s: &[u8], from: usize) -> BlameSplit
    ensures { Seen s.now from result.at result.depth result.deepest result.slices result.behind result.deep
        × StopsBy result.beyond s.now result.at result.depth }
{
    let mut at = from;
    let mut depth: usize = 0;
    let mut deepest: usize = 0;
    let mut n: usize = 0;
    let mut behind = from;
    let mut deep: usize = 0;
    // A loop: `at` moves by the token that it finds.
    loop {
        match lexer::next_token(s, at) {
            Step::Start(i) => {
                at = i + 1;
                depth += 1;
                deep = first_deep(deepest, depth, deep, i);
                deepest = deepest.max(depth);
            }
            Step::End(i) => {
                if depth == 0 {
                    return BlameSplit {
                        depth: 0,
                        deepest,
                        slices: n,
                        behind,
                        deep,
                        at,
                        beyond: true,
                    };
                }
                at = i + 1;
                depth -= 1;
                if depth == 0 {
                    n += 1;
                    behind = i + 1;
                }
            }
            Step::Node(i) => at = i + 1,
            Step::Property(_, _, e) => at = e,
            Step::Refused(_, _) => {
                return BlameSplit {
                    depth,
                    deepest,
                    slices: n,
                    behind,
                    deep,
                    at,
                    beyond: false,
                };
            }
            Step::Done => {
                return BlameSplit {
                    depth,
                    deepest,
                    slices: n,
                    behind,
                    deep,
                    at,
                    beyond: false,
                };
            }
        }
    }
}

// The place of the first token from a place on, failing or not; where there is none, `none`.
pub fn first_place(s: &[u8], from: usize, none: usize) -> usize
    ensures { result ≡ first_place none (lex_at s.now from).toks (lex_at s.now from).end }
{
    match lexer::next_token(s, from) {
        Step::Start(i) | Step::End(i) | Step::Node(i) => i,
        Step::Property(i, _, _) => i,
        Step::Refused(_, i) => i,
        Step::Done => none,
    }
}

// So many slices, unless a token is too deep.
fn unless_deep(
    deepest: usize,
    deep: usize,
    count: usize,
    place: usize,
) -> Result<(usize, usize), Refusal<Fact>>
    ensures { result ≡ pick (ltb depth_limit deepest) (Err (refusal TooDeep deep)) (Ok (count, place)) }
{
    if DEPTH_LIMIT < deepest {
        return Err(Refusal {
            reason: Fact::TooDeep,
            place: deep,
        });
    }
    Ok((count, place))
}

// The first fault from a place on.
fn first_fault(s: &[u8], from: usize) -> Ending
    ensures { result ≡ ending_of (lex_at s.now from).end }
{
    let mut at = from;
    // A loop: `at` moves by the token that it finds.
    loop {
        let stepped = lexer::Cursor { at }.next(s);
        let token = stepped.token;
        match token {
            Step::Refused(f, i) => return Ending::Broken(f, i),
            Step::Done => return Ending::Whole,
            _ => {
                let next = stepped.next;
                at = next.at;
            }
        }
    }
}

// The tokens from a place on, in a text of `size` bytes, split strictly. A fault is looked for where splitting stops: no token before has one.
fn split_strict(s: &[u8], from: usize, size: usize) -> Result<(usize, usize), Refusal<Fact>>
    ensures { result ≡ tokens_cut false size s.now (lex_at s.now from) (lex_at s.now from).end }
{
    let x = split_tokens(s, from);
    if let Ending::Broken(fault, i) = first_fault(s, x.at) {
        return Err(Refusal {
            reason: crate::in_token(s, fault, i),
            place: i,
        });
    }
    if x.beyond {
        return Err(Refusal {
            reason: Fact::EndBeyond,
            place: first_place(s, x.at, 0),
        });
    }
    if x.depth != 0 {
        return Err(Refusal {
            reason: Fact::StaysOpen(x.depth),
            place: first_place(s, x.behind, 0),
        });
    }
    if x.slices == 0 {
        return Err(Refusal {
            reason: Fact::NoEnd,
            place: 0,
        });
    }
    unless_deep(x.deepest, x.deep, x.slices, first_place(s, x.behind, size))
}

// The same, split leniently.
fn split_lenient(s: &[u8], from: usize, size: usize) -> Result<(usize, usize), Refusal<Fact>>
    ensures { result ≡ cut_tokens true size (lex_at s.now from) }
{
    let x = split_tokens(s, from);
    if x.depth != 0 {
        return unless_deep(x.deepest, x.deep, x.slices + 1, first_place(s, x.at, size));
    }
    if x.slices == 0 {
        return Ok((0, first_place(s, x.behind, size)));
    }
    unless_deep(x.deepest, x.deep, x.slices, first_place(s, x.behind, size))
}

// The tokens from a place on, in a text of `size` bytes, split strictly or leniently. Strictly a fault comes first.
pub fn in_split(
    s: &[u8],
    from: usize,
    size: usize,
    lenient: bool,
) -> Result<(usize, usize), Refusal<Fact>>
    ensures { result ≡ tokens_cut lenient size s.now (lex_at s.now from) (lex_at s.now from).end }
{
    if lenient {
        return split_lenient(s, from, size);
    }
    split_strict(s, from, size)
}
