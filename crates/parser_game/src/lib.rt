// The game type of a slice.
#![tactic(auto)]

ghost use Rattle.std.specs.Prelude.{◌≡◌, [], ◌∷◌, ◌≤◌, length};
ghost use Rattle.std.proofs.Math.Seq.{slice};
ghost use Rattle.lists.specs.Same.{same};
ghost use Rattle.values.specs.Read.{read_value};
ghost use Rattle.lexer.specs.Token.{lex_at};
ghost use Rattle.lexer.specs.Step.{next_at, vals_at};
ghost use Rattle.parser.specs.Game.{GM, game_of, game_vals, find_gametype};
ghost use Rattle.parser.specs.LocalsSlice.{slice_from};
ghost use Rattle.parser_game.specs.LocalsGame.{type_of, behind_of, goes_on_at, concluded};

use lexer::Step;
use lexer_scan::ValueStep;
use tables::Reason;
use values::decimal::Number;

// Is the read value exactly `1`.
fn is_one(v: &[u8]) -> bool
    ensures { result ≡ same (read_value v.now) (0x31 ∷ []) }
{
    match values::read::next_read(v, 0) {
        None => false,
        Some((b, next)) => {
            if b != b'1' {
                return false;
            }
            match values::read::next_read(v, next) {
                None => true,
                Some(_) => false,
            }
        }
    }
}

// The game type that a value says.
pub fn game_of(v: &[u8]) -> Result<u32, Reason>
    ensures { result ≡ type_of (game_of (read_value v.now)) }
{
    let Number::Bad = values::decimal::read_i32(v) else {
        if is_one(v) {
            return Ok(0);
        }
        return Ok(1);
    };
    Err(Reason::InvalidGameType)
}

// The game type that the values from k on say: exactly one is wanted.
pub fn game_values(s: &[u8], k: usize) -> Result<u32, Reason>
    ensures { result ≡ type_of (game_vals (vals_at s.now k)) }
{
    let ValueStep::Value(a, e, next) = lexer_scan::next_value(s, k) else {
        return Err(Reason::InvalidGameType);
    };
    let ValueStep::Value(_, _, _) = lexer_scan::next_value(s, next) else {
        return game_of(&s[a..e]);
    };
    Err(Reason::InvalidGameType)
}

// The game type by the one GM that was found, or Go.
fn conclude(s: &[u8], found: bool, k: usize) -> Result<u32, Reason>
    ensures { result ≡ type_of (concluded found (vals_at s.now k)) }
{
    if found {
        return game_values(s, k);
    }
    Ok(0)
}

// Is the raw identifier exactly `GM`.
pub fn is_gm(s: &[u8], i: usize, k: usize) -> bool
    requires { (i ≤ k) × (k ≤ length s.now) }
    ensures { result ≡ same (slice i k s.now) GM }
{
    &s[i..k] == b"GM".as_slice()
}

// Behind the token at a place; where the slice or the text ends there, the text's end.
pub fn behind(s: &[u8], from: usize) -> usize
    ensures { (result ≡ goes_on_at (length s.now) (next_at s.now from))
        × ((lex_at s.now result).toks ≡ behind_of (lex_at s.now from).toks) }
{
    match lexer::next_token(s, from) {
        Step::Start(i) => i + 1,
        Step::Node(i) => i + 1,
        Step::Property(_, _, e) => e,
        Step::End(_) => s.len(),
        Step::Refused(_, _) => s.len(),
        Step::Done => s.len(),
    }
}

// The game type of the slice that starts at a place: two tokens are skipped, then `GM` is looked for.
pub fn game_type(s: &[u8], from: usize) -> Result<u32, Reason>
    ensures { result ≡ type_of (find_gametype (slice_from 0 (lex_at s.now from).toks)) }
{
    let second = behind(s, from);
    let mut at = behind(s, second);
    let mut found = false;
    let mut k: usize = 0;
    // A loop: `at` moves by the token that it finds.
    loop {
        let Step::Property(i, j, e) = lexer::next_token(s, at) else {
            break;
        };
        at = e;
        if is_gm(s, i, j) {
            if found {
                return Err(Reason::UnexpectedProperty);
            }
            found = true;
            k = j;
        }
    }
    conclude(s, found, k)
}
