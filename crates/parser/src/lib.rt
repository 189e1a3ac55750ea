// The first pass over the tokens: faults, splitting into slices, depth.
#![tactic(auto)]

ghost use Rattle.std.specs.Prelude.{◌≡◌, true, false, ltb};
ghost use Rattle.lists.specs.Pick.{pick};
ghost use Rattle.lexer.specs.Token.{lex_at};
ghost use Rattle.tables.specs.Numbers.{depth_limit};
ghost use Rattle.tables.specs.declared.Reason.TheVariants.{UnexpectedGameTreeEnd, TooDeep};
ghost use Rattle.parser.specs.declared.Survey.TheVariants.{Refused, Slices};
ghost use Rattle.parser.specs.Split.{no};
ghost use Rattle.parser.specs.LocalsSurvey.{SplitIs, survey_strict, survey_of};

use lexer::Step;
use tables::Reason;

// What the pass finds: why the text is refused and the place; so many slices; or no slice, where lenient splitting gives an empty one.
#[derive(Clone, Copy)]
pub enum Survey {
    Refused(Reason, usize),
    Slices(usize),
    Empty,
}

// Where splitting stops: at an end at depth 0; at a fault of the token that starts at a place; with the text.
#[derive(Clone, Copy)]
enum Stop {
    End(usize),
    Fault(lexer::Fault, usize),
    Done,
}

// The depth, the greatest depth and the number of slices where splitting stops.
#[derive(Clone, Copy)]
struct Split {
    depth: usize,
    deepest: usize,
    slices: usize,
    stop: Stop,
}

// The tokens from a place on, split as far as an end at depth 0.
fn split_tokens(s: &[u8], from: usize) -> Split
    ensures { SplitIs s.now (lex_at s.now from) result.depth result.deepest result.slices result.stop }
{
    let mut at = from;
    let mut depth: usize = 0;
    let mut deepest: usize = 0;
    let mut n: usize = 0;
    // A loop: `at` moves by the token that it finds.
    loop {
        match lexer::next_token(s, at) {
            Step::Start(i) => {
                at = i + 1;
                depth += 1;
                deepest = deepest.max(depth);
            }
            Step::End(i) => {
                if depth == 0 {
                    return Split {
                        depth: 0,
                        deepest,
                        slices: n,
                        stop: Stop::End(i),
                    };
                }
                at = i + 1;
                depth -= 1;
                if depth == 0 {
                    n += 1;
                }
            }
            Step::Node(i) => at = i + 1,
            Step::Property(_, _, e) => at = e,
            Step::Refused(f, i) => {
                return Split {
                    depth,
                    deepest,
                    slices: n,
                    stop: Stop::Fault(f, i),
                };
            }
            Step::Done => {
                return Split {
                    depth,
                    deepest,
                    slices: n,
                    stop: Stop::Done,
                };
            }
        }
    }
}

// The first fault from a place on; where there is none, an end without a start.
fn fault_or_end(s: &[u8], from: usize) -> Survey
    ensures { result ≡ survey_strict (lex_at s.now from).end (no UnexpectedGameTreeEnd) }
{
    let mut at = from;
    // A loop: `at` moves by the token that it finds.
    loop {
        let stepped = lexer::Cursor { at }.next(s);
        let token = stepped.token;
        match token {
            Step::Refused(f, i) => return Survey::Refused(Reason::from(f), i),
            Step::Done => return Survey::Refused(Reason::UnexpectedGameTreeEnd, 0),
            _ => {
                let next = stepped.next;
                at = next.at;
            }
        }
    }
}

// So many slices, unless one is too deep.
fn unless_deep(deepest: usize, n: usize) -> Survey
    ensures { result ≡ pick (ltb depth_limit deepest) (Refused TooDeep 0) (Slices n) }
{
    if tables::DEPTH_LIMIT < deepest {
        return Survey::Refused(Reason::TooDeep, 0);
    }
    Survey::Slices(n)
}

// All tokens from a place on, strictly: the first fault, or what splitting says.
pub fn survey_strict(s: &[u8], from: usize) -> Survey
    ensures { result ≡ survey_of false (lex_at s.now from) }
{
    let x = split_tokens(s, from);
    let stop = x.stop;
    match stop {
        Stop::End(i) => fault_or_end(s, i + 1),
        Stop::Fault(f, i) => Survey::Refused(Reason::from(f), i),
        Stop::Done => {
            if x.depth != 0 {
                return Survey::Refused(Reason::UnexpectedEndOfData, 0);
            }
            if x.slices == 0 {
                return Survey::Refused(Reason::NoGameTrees, 0);
            }
            unless_deep(x.deepest, x.slices)
        }
    }
}

// The tokens from a place on as far as the first fault, leniently: an open slice is the last one.
pub fn survey_lenient(s: &[u8], from: usize) -> Survey
    ensures { result ≡ survey_of true (lex_at s.now from) }
{
    let x = split_tokens(s, from);
    if x.depth != 0 {
        return unless_deep(x.deepest, x.slices + 1);
    }
    if x.slices == 0 {
        return Survey::Empty;
    }
    unless_deep(x.deepest, x.slices)
}
