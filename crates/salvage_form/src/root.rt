// The rule of a tree and whether its root's GMs are removed, by the properties that follow the root's token in the text.
ghost use Rattle.std.specs.Prelude.{◌≡◌, map, Ok};
ghost use Rattle.values.specs.Read.{read_value};
ghost use Rattle.lexer.specs.Token.{lex_at};
ghost use Rattle.lists.specs.Pick.{pick};
ghost use Rattle.lexer.specs.Step.{vals_at};
ghost use Rattle.parser.specs.Game.{props, game_vals, game_props};
ghost use Rattle.parser_game.specs.LocalsGame.{type_of};
ghost use Rattle.go_size.specs.Size.{size_of};
ghost use Rattle.go_size.specs.Root.{root_size, size_of_values, size_in};
ghost use Rattle.go_size.specs.declared.RootSize.TheVariants.{Absent};
ghost use Rattle.fit_rule.specs.Rule.{property_of};
ghost use Rattle.salvage_mend.specs.Mend.{gms_among};
ghost use Rattle.salvage_form.specs.Measured.{raws_at};
ghost use Rattle.salvage_form.specs.Rooted.{root_rule};
ghost use Rattle.salvage_form.specs.LocalsRooted.{ruled_by};

use go_size::RootSize;
use lexer::Step;
use lexer_scan::ValueStep;
use tables::Reason;

// The rule of a mended tree, and whether its root's GMs are removed.
#[derive(Clone, Copy)]
pub struct RootRule {
    pub rule: u32,
    pub bad: bool,
}

// The game type that the properties from a place on give by those that read GM, or why they give none.
fn root_game(s: &[u8], from: usize) -> Result<u32, Reason>
    ensures { result ≡ type_of (game_props (gms_among (props (lex_at s.now from).toks))) }
{
    let mut at = from;
    let mut found = false;
    let mut k: usize = 0;
    // A loop: `at` moves by the token that it finds.
    loop {
        let Step::Property(i, j, e) = lexer::next_token(s, at) else {
            break;
        };
        at = e;
        if parts_props::reads_as(&s[i..j], b"GM") {
            if found {
                return Err(Reason::UnexpectedProperty);
            }
            found = true;
            k = j;
        }
    }
    if found {
        return parser_game::game_values(s, k);
    }
    Ok(0)
}

// The size that a value says.
fn board_size(value: &[u8]) -> RootSize
    ensures { result ≡ root_size (size_of (read_value value.now)) }
{
    match go_size::read_size(value) {
        None => RootSize::Wrong,
        Some((x, y)) => RootSize::Sized(x, y),
    }
}

// The size that the values from k on say: exactly one is wanted.
fn size_values(s: &[u8], k: usize) -> RootSize
    ensures { result ≡ size_of_values (raws_at s.now k) }
{
    let ValueStep::Value(a, e, next) = lexer_scan::next_value(s, k) else {
        return RootSize::Wrong;
    };
    let ValueStep::Value(_, _, _) = lexer_scan::next_value(s, next) else {
        return board_size(&s[a..e]);
    };
    RootSize::Wrong
}

// The size that the properties from a place on say.
fn root_size(s: &[u8], from: usize) -> RootSize
    ensures { result ≡ size_in (map property_of (props (lex_at s.now from).toks)) }
{
    let mut at = from;
    let mut found = false;
    let mut k: usize = 0;
    // A loop: `at` moves by the token that it finds.
    loop {
        let Step::Property(i, j, e) = lexer::next_token(s, at) else {
            break;
        };
        at = e;
        if parts_props::reads_as(&s[i..j], b"SZ") {
            if found {
                return RootSize::Wrong;
            }
            found = true;
            k = j;
        }
    }
    if found {
        return size_values(s, k);
    }
    RootSize::Absent
}

// One of two places.
fn either(first: bool, a: usize, b: usize) -> usize
    ensures { result ≡ pick first a b }
{
    if first {
        return a;
    }
    b
}

// The same, where none or one of the properties reads SZ: the place of its first `[`.
fn size_found(s: &[u8], found: bool, k: usize) -> RootSize
    ensures { result ≡ pick found (size_of_values (raws_at s.now k)) Absent }
{
    if found {
        return size_values(s, k);
    }
    RootSize::Absent
}

// The game type, where none or one of the properties reads GM: the place of its first `[`.
fn game_found(s: &[u8], found: bool, k: usize) -> Result<u32, Reason>
    ensures { result ≡ pick found (type_of (game_vals (vals_at s.now k))) (Ok 0) }
{
    if found {
        return parser_game::game_values(s, k);
    }
    Ok(0)
}

// By the game type and the size.
fn rule_by(game: Result<u32, Reason>, size: RootSize) -> RootRule
    ensures { result ≡ ruled_by game size }
{
    match game {
        Ok(k) => RootRule {
            rule: fit_rule::rule_of(k, size),
            bad: false,
        },
        Err(_) => RootRule {
            rule: fit_rule::rule_of(0, size),
            bad: true,
        },
    }
}

// Of the tree whose root's properties are those that follow the place `at`, GM and SZ looked for one after the other.
fn rule_apart(s: &[u8], at: usize) -> RootRule
    ensures { result ≡ root_rule (props (lex_at s.now at).toks) }
{
    rule_by(root_game(s, at), root_size(s, at))
}

// Of the tree whose root's properties are those that follow the place `from`: its rule once it is mended, and whether the root's GMs are removed. Most roots have at
// most one GM and one SZ, and are then walked once.
pub fn root_rule(s: &[u8], from: usize) -> RootRule
    ensures { result ≡ root_rule (props (lex_at s.now from).toks) }
{
    let mut at = from;
    let mut game = false;
    let mut g: usize = 0;
    let mut sized = false;
    let mut z: usize = 0;
    // A loop: `at` moves by the token that it finds.
    loop {
        let Step::Property(i, j, e) = lexer::next_token(s, at) else {
            break;
        };
        let name = &s[i..j];
        let gm = parts_props::reads_as(name, b"GM");
        let sz = parts_props::reads_as(name, b"SZ");
        if (gm & game) | (sz & sized) {
            return rule_apart(s, from);
        }
        at = e;
        g = either(gm, j, g);
        z = either(sz, j, z);
        game = game | gm;
        sized = sized | sz;
    }
    rule_by(game_found(s, game, g), size_found(s, sized, z))
}
