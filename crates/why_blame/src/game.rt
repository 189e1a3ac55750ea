// The game type of a slice, explained.
ghost use Rattle.std.specs.Prelude.{◌≡◌, [], ◌∷◌, ◌≤◌, length, drop};
ghost use Rattle.std.proofs.Math.Seq.{slice};
ghost use Rattle.lists.specs.Same.{same};
ghost use Rattle.lexer.specs.Token.{lex_at};
ghost use Rattle.lexer.specs.Step.{vals_at};
ghost use Rattle.parser.specs.Game.{GM, game_vals, props, props_named};
ghost use Rattle.parser.specs.LocalsSlice.{slice_from};
ghost use Rattle.parser_game.specs.LocalsGame.{behind_of};
ghost use Rattle.why_blame.specs.Games.{values_blame, game_blame};
ghost use Rattle.why_blame.specs.LocalsGames.{FoundIs};

use crate::Fact;
use lexer::Step;
use lexer_scan::ValueStep;
use tables::Refusal;

// The first GM of the properties that stand from a place on.
fn find_gm(s: &[u8], from: usize) -> Option<(usize, usize, usize)>
    ensures { FoundIs s.now (lex_at s.now from).toks result }
{
    let mut at = from;
    // A loop: `at` moves by the token that it finds.
    loop {
        let Step::Property(i, k, e) = lexer::next_token(s, at) else {
            break;
        };
        if parser_game::is_gm(s, i, k) {
            return Some((i, k, e));
        }
        at = e;
    }
    None
}

// How many values stand from a place on.
fn count_values(s: &[u8], from: usize) -> usize
    ensures { result ≡ length (vals_at s.now from) }
{
    let mut i = from;
    let mut n: usize = 0;
    // A loop: `i` moves by the value that it finds.
    loop {
        let ValueStep::Value(_, _, next) = lexer_scan::next_value(s, i) else {
            break;
        };
        n += 1;
        i = next;
    }
    n
}

// The one GM at a place, by its values from k on.
fn in_values(s: &[u8], at: usize, k: usize) -> Option<Refusal<Fact>>
    ensures { result ≡ values_blame at (vals_at s.now k) (game_vals (vals_at s.now k)) }
{
    match parser_game::game_values(s, k) {
        Ok(_) => None,
        Err(_) => {
            let count = count_values(s, k);
            if count == 1 {
                return Some(Refusal {
                    reason: Fact::GmNumber,
                    place: at,
                });
            }
            Some(Refusal {
                reason: Fact::GmValues(count),
                place: at,
            })
        }
    }
}

// The game type of slice n, which starts at a place: two tokens are skipped, then `GM` is looked for.
pub fn in_game(s: &[u8], from: usize, n: usize) -> Option<Refusal<Fact>>
    ensures { result ≡ game_blame n (props_named GM (props (drop 2 (slice_from 0 (lex_at s.now from).toks)))) }
{
    let second = parser_game::behind(s, from);
    match find_gm(s, parser_game::behind(s, second)) {
        None => None,
        Some((i, k, e)) => {
            match find_gm(s, e) {
                None => in_values(s, i, k),
                Some((j, _, _)) => Some(Refusal {
                    reason: Fact::SecondGm(n),
                    place: j,
                }),
            }
        }
    }
}
