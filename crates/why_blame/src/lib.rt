// Why tokens are refused: the fact, and the place of the token to blame. Faults of the tokens, splitting, the game type of a slice.
#![tactic(auto)]

pub mod game; // game.rt: the game type of a slice
pub mod split; // split.rt: splitting

ghost use Rattle.std.specs.Prelude.{◌≡◌, drop};
ghost use Rattle.why_blame.specs.Cuts.{foreign_from, fault_fact};

// What refuses a text, beside the place of the token to blame: the length (1); a bad sequence (2); where an identifier's scan stops, at the end of what trimming keeps (3) or at a byte that is not ASCII (4); where a value's scan stops (5); an end beyond the starts before it (6); how many trees stay open, and a slice without a node (7); no end (8); a start that is too deep (9); a start in the empty list of this node, NONE for the tree's own (10); a second GM in this slice, and a property that is not directly behind a node (11); how many values GM has, and that its one value is no number (12).
#[derive(Clone, Copy)]
pub enum Fact {
    Length(usize),
    BadSequence,
    NoBracket(usize),
    Foreign(usize),
    NotClosed(usize),
    EndBeyond,
    StaysOpen(usize),
    NoNode(usize),
    NoEnd,
    TooDeep,
    EmptyList(u32),
    SecondGm(usize),
    Stray,
    GmValues(usize),
    GmNumber,
}

// The first place at or after `from` whose byte is not ASCII.
fn foreign_at(s: &[u8], from: usize) -> usize
    ensures { result ≡ foreign_from from (drop from s.now) }
{
    for i in from..s.len() {
        if !s[i].is_ascii() {
            return i;
        }
    }
    from.max(s.len())
}

// The fault of the token that starts at a place: where its scan stops.
pub fn in_token(s: &[u8], fault: lexer::Fault, from: usize) -> Fact
    ensures { result ≡ fault_fact s.now fault from }
{
    match fault {
        lexer::Fault::MissingPropertyIdentifier => Fact::NoBracket(s.len()),
        lexer::Fault::UnexpectedEndOfPropertyIdentifier => Fact::Foreign(foreign_at(s, from)),
        lexer::Fault::UnexpectedEndOfPropertyValue => Fact::NotClosed(s.len()),
    }
}
