// A thin token walker that holds the text itself: a text and an offset. The work is the lexer's cursor step.
#![tactic(auto)]

ghost use Rattle.std.specs.Prelude.{◌≡◌};
ghost use Rattle.lexer.specs.Step.{SteppedIs};

use lexer::{Cursor, Stepped};

// A text, and the place from which its tokens are taken.
#[derive(Clone, Copy)]
pub struct Walker<'a> {
    pub text: &'a [u8],
    pub at: usize,
}

// The walker of a text, at a place.
pub fn new<'a>(text: &'a [u8], at: usize) -> Walker<'a>
    ensures { (result.text ≡ text.entry) × (result.at ≡ at) }
{
    Walker { text, at }
}

// The cursor's step over plain parameters.
fn step_at(s: &[u8], at: usize) -> Stepped
    ensures { SteppedIs s.now at result.token result.next.at }
{
    Cursor { at: at }.next(s)
}

// The next token, and the place behind it.
pub fn next<'a>(w: Walker<'a>) -> Stepped
    ensures { SteppedIs w.entry.text.now w.entry.at result.token result.next.at }
{
    step_at(w.text, w.at)
}

// The walker at another place of its text: with the place that `next` gave, it goes on.
pub fn moved<'a>(w: Walker<'a>, at: usize) -> Walker<'a>
    ensures { (result.text ≡ w.entry.text) × (result.at ≡ at) }
{
    Walker { text: w.text, at }
}

// The token at a place of a text, by a walker, over plain parameters.
pub fn token_at(s: &[u8], at: usize) -> Stepped
    ensures { SteppedIs s.now at result.token result.next.at }
{
    next(new(s, at))
}
