// Why a text is refused: the number's fact and the place of the token to blame; of an accepted text the counts and the place where reading ended. No tables are lent and none is needed, and a text that is refused is walked once.
#![tactic(auto)]

mod tree; // tree.rt: the tree of a slice

ghost use Rattle.std.specs.Prelude.{◌≡◌, true, false, length, ◌≤◌};
ghost use Rattle.lexer.specs.Token.{lex_at};
ghost use Rattle.parser.specs.LocalsSlice.{first_slices};
ghost use Rattle.parser_census.specs.LocalsCensus.{census_of};
ghost use Rattle.reader.specs.LocalsSlices.{SlicesReady};
ghost use Rattle.tables.specs.Numbers.{text_limit};
ghost use Rattle.why.specs.Trees.{slices_blame};
ghost use Rattle.why_blame.specs.Cuts.{cut_tokens};
ghost use Rattle.why.specs.Why.{tokens_blame, cut_loose, explained};
ghost use Rattle.why.specs.LocalsSought.{sought_by, sought_in, SoughtIs};

use tables::{Counts, Refusal};
use text_utf8::Trimmed;
use why_blame::Fact;

// What is found before rows are counted: nothing is odd, and the counts; nothing is to blame; each with the place of the first token in no slice. Or the fact and the place of the token to blame.
#[derive(Clone, Copy)]
enum Sought {
    Simple(Counts, usize),
    Sound(usize),
    Wrong(Fact, usize),
}

// The slices from a place on, one after the other: game type, tree, nodes.
fn in_slices(s: &[u8], from: usize, count: usize) -> Option<Refusal<Fact>>
    requires { SlicesReady false s.now from count }
    ensures { result ≡ slices_blame 0 0 (first_slices count (lex_at s.now from).toks) }
{
    let mut at = from;
    let mut base: usize = 0;
    for k in 0..count {
        match why_blame::game::in_game(s, at, k) {
            Some(blamed) => return Some(blamed),
            None => {
                match tree::walk_slice(s, at, base) {
                    Err(refused) => return Some(Refusal {
                        reason: refused.reason,
                        place: refused.place,
                    }),
                    Ok((next, n)) => {
                        if n == base {
                            return Some(Refusal {
                                reason: Fact::NoNode(k),
                                place: why_blame::split::first_place(s, at, 0),
                            });
                        }
                        at = next;
                        base = n;
                    }
                }
            }
        }
    }
    None
}

// The tokens from a place on, in a text of `size` bytes: faults and splitting in one pass, then the slices in one walk.
fn in_tokens(s: &[u8], from: usize, size: usize, lenient: bool) -> Sought
    requires { (length s.now ≤ text_limit) × (from ≤ length s.now) }
    ensures { result ≡ sought_by (tokens_blame lenient size s.now (lex_at s.now from) (lex_at s.now from).end)
        (cut_loose size (cut_tokens lenient size (lex_at s.now from))) }
{
    match why_blame::split::in_split(s, from, size, lenient) {
        Err(refused) => Sought::Wrong(refused.reason, refused.place),
        Ok((count, loose)) => {
            if lenient {
                return Sought::Sound(loose);
            }
            match in_slices(s, from, count) {
                Some(blamed) => Sought::Wrong(blamed.reason, blamed.place),
                None => Sought::Sound(loose),
            }
        }
    }
}

// The same, but the census first. Where it counts the rows, each token is in a slice.
fn in_part(s: &[u8], from: usize, size: usize, lenient: bool) -> Sought
    requires { (length s.now ≤ text_limit) × (from ≤ length s.now) }
    ensures { result ≡ sought_in (census_of (lex_at s.now from)) size
        (sought_by (tokens_blame lenient size s.now (lex_at s.now from) (lex_at s.now from).end)
        (cut_loose size (cut_tokens lenient size (lex_at s.now from)))) }
{
    match parser_census::take_census(s, from) {
        Some((t, n, p, v)) => Sought::Simple(
            Counts {
                trees: t,
                nodes: n,
                properties: p,
                values: v,
            },
            size,
        ),
        None => in_tokens(s, from, size, lenient),
    }
}

// A text.
fn in_text(text: &[u8], lenient: bool) -> Sought
    ensures { SoughtIs lenient text.now result }
{
    if tables::TEXT_LIMIT < text.len() {
        return Sought::Wrong(Fact::Length(text.len()), 0);
    }
    match text_utf8::trim(text) {
        Trimmed::NotUtf8(place) => Sought::Wrong(Fact::BadSequence, place),
        Trimmed::Blank => in_tokens(&text[..0], 0, text.len(), lenient),
        Trimmed::Kept(first, last) => in_part(&text[..last], first, text.len(), lenient),
    }
}

// Why a text is refused where it is read strictly. Rows are counted only where something is odd and nothing is to blame.
pub fn strict(text: &[u8]) -> Result<(Counts, usize), Refusal<Fact>>
    ensures { result ≡ explained false text.now }
{
    match in_text(text, false) {
        Sought::Simple(counts, loose) => Ok((counts, loose)),
        Sought::Wrong(fact, place) => Err(Refusal {
            reason: fact,
            place,
        }),
        Sought::Sound(loose) => {
            match reader::count_strict(text) {
                Ok(counts) => Ok((counts, loose)),
                Err(_) => Err(Refusal {
                    reason: Fact::NoEnd,
                    place: 0,
                }),
            }
        }
    }
}

// Why a text is refused where it is read leniently.
pub fn lenient(text: &[u8]) -> Result<(Counts, usize), Refusal<Fact>>
    ensures { result ≡ explained true text.now }
{
    match in_text(text, true) {
        Sought::Simple(counts, loose) => Ok((counts, loose)),
        Sought::Wrong(fact, place) => Err(Refusal {
            reason: fact,
            place,
        }),
        Sought::Sound(loose) => {
            match reader::count_lenient(text) {
                Ok(counts) => Ok((counts, loose)),
                Err(_) => Err(Refusal {
                    reason: Fact::NoEnd,
                    place: 0,
                }),
            }
        }
    }
}
