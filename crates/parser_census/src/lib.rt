// The census: one walk over the tokens of a text, without a stack, that counts the rows where nothing is odd. An odd text is left to the reader's own way.
#![tactic(auto)]

ghost use Rattle.std.specs.Prelude.{◌≡◌, true, false, ◌≤◌, ◌<◌, length, get_or};
ghost use Rattle.std.proofs.Math.Seq.{slice};
ghost use Rattle.lists.specs.Same.{same};
ghost use Rattle.lexer_close.specs.LocalsRun.{closes_nothing};
ghost use Rattle.lexer_scan.specs.Scan.{space};
ghost use Rattle.lexer.specs.Token.{lex_at};
ghost use Rattle.lexer.specs.Step.{vals_at};
ghost use Rattle.parser.specs.Game.{GM, game_vals};
ghost use Rattle.parser_census.specs.LocalsCensus.{on_start, on_end, on_last, on_node, on_kind, on_prop, total, census_of};
ghost use Rattle.parser_census.specs.LocalsCount.{takes, is_odd, CountedIs, NameAt, ShortIs};

use lexer_scan::{Ident, ValueStep};

// Where the tokens so far lead: outside of a tree; behind the start of one; behind its root or the root's properties, without and with a game type; behind another node or its properties; behind a start where the current list is empty; where it is empty; where it is not; or something is odd.
#[derive(Clone, Copy)]
pub enum Mode {
    Outside,
    First,
    Root,
    Typed,
    Node,
    Opened,
    Bare,
    Full,
    Odd,
}

// Behind a start.
fn on_start(mode: Mode) -> Mode
    ensures { result ≡ on_start mode }
{
    match mode {
        Mode::Outside => Mode::First,
        Mode::Root | Mode::Typed | Mode::Node | Mode::Bare => Mode::Opened,
        Mode::Full => Mode::Full,
        Mode::First | Mode::Opened | Mode::Odd => Mode::Odd,
    }
}

// Behind an end that leaves a tree open.
fn on_end(mode: Mode) -> Mode
    ensures { result ≡ on_end mode }
{
    match mode {
        Mode::Root | Mode::Typed | Mode::Node | Mode::Bare | Mode::Full => Mode::Full,
        Mode::Opened => Mode::Bare,
        Mode::Outside | Mode::First | Mode::Odd => Mode::Odd,
    }
}

// Behind the end of a tree.
fn on_last(mode: Mode) -> Mode
    ensures { result ≡ on_last mode }
{
    match mode {
        Mode::Outside | Mode::First | Mode::Odd => Mode::Odd,
        _ => Mode::Outside,
    }
}

// Behind a node.
fn on_node(mode: Mode) -> Mode
    ensures { result ≡ on_node mode }
{
    match mode {
        Mode::Outside | Mode::Odd => Mode::Odd,
        Mode::First => Mode::Root,
        _ => Mode::Node,
    }
}

// May a property follow.
fn may_take(mode: Mode) -> bool
    ensures { result ≡ takes mode }
{
    matches!(mode, Mode::Root | Mode::Typed | Mode::Node)
}

// Is something odd.
fn is_odd(mode: Mode) -> bool
    ensures { result ≡ is_odd mode }
{
    matches!(mode, Mode::Odd)
}

// Behind the last token.
fn add_up(
    mode: Mode,
    t: usize,
    n: usize,
    p: usize,
    v: usize,
) -> Option<(usize, usize, usize, usize)>
    ensures { result ≡ total mode t n p v }
{
    match mode {
        Mode::Outside if t != 0 => Some((t, n, p, v)),
        _ => None,
    }
}

// The values that stand from the `[` at a place on, counted.
fn count_values(s: &[u8], from: usize) -> Option<(usize, usize)>
    requires { (from < length s.now) × (space (get_or s.now from 0) ≡ false) }
    ensures { CountedIs s.now from result }
{
    let mut i = from;
    let mut n: usize = 0;
    // A loop: `i` moves by the value that it finds.
    loop {
        match lexer_scan::next_value(s, i) {
            ValueStep::Value(_, _, next) => {
                n += 1;
                i = next;
            }
            ValueStep::NoMore => return Some((n, i)),
            ValueStep::Unclosed => return None,
        }
    }
}

// Neither `]` nor a backslash.
fn is_plain(b: u8) -> bool
    ensures { result ≡ closes_nothing b }
{
    (b != b']') & (b != b'\\')
}

// Does a property of one letter stand there, with one value of two plain bytes, and no white space or further value behind it.
fn is_short(s: &[u8], i: usize) -> bool
    requires { (i < length s.now) × NameAt s.now i }
    ensures { result ≡ true → ShortIs s.now i }
{
    if s.len() - i < 6 {
        return false;
    }
    ((s[i] < 128) & (s[i] != b'['))
        & ((s[i + 1] == b'[')
            & ((s[i + 4] == b']')
                & ((is_plain(s[i + 2]) & is_plain(s[i + 3]))
                    & ((32 < s[i + 5]) & (s[i + 5] != b'[')))))
}

// Behind the root's game type, whose first `[` is at k.
fn on_type(s: &[u8], k: usize) -> Mode
    ensures { result ≡ on_kind (game_vals (vals_at s.now k)) }
{
    let Ok(game) = parser_game::game_values(s, k) else {
        return Mode::Odd;
    };
    if game == 0 {
        return Mode::Typed;
    }
    Mode::Odd
}

// Behind the property at i whose first `[` is at k.
fn on_property(s: &[u8], mode: Mode, i: usize, k: usize) -> Mode
    requires { (i ≤ k) × (k ≤ length s.now) }
    ensures { result ≡ on_prop mode (same (slice i k s.now) GM) (vals_at s.now k) }
{
    match mode {
        Mode::Root => {
            if parser_game::is_gm(s, i, k) {
                return on_type(s, k);
            }
            Mode::Root
        }
        Mode::Typed => {
            if parser_game::is_gm(s, i, k) {
                return Mode::Odd;
            }
            Mode::Typed
        }
        Mode::Node => Mode::Node,
        _ => Mode::Odd,
    }
}

// The census of the tokens from a place on.
pub fn take_census(s: &[u8], from: usize) -> Option<(usize, usize, usize, usize)>
    ensures { result ≡ census_of (lex_at s.now from) }
{
    let mut i = lexer_scan::skip_space(s, from);
    let mut mode = Mode::Outside;
    let mut depth: usize = 0;
    let mut t: usize = 0;
    let mut n: usize = 0;
    let mut p: usize = 0;
    let mut v: usize = 0;
    // A loop: `i` moves by the token that it finds.
    loop {
        if s.len() <= i {
            return add_up(mode, t, n, p, v);
        }
        let b = s[i];
        if b == b';' {
            mode = on_node(mode);
            if is_odd(mode) {
                return None;
            }
            n += 1;
            i = lexer_scan::skip_space(s, i + 1);
            continue;
        }
        if b == b'(' {
            if tables::DEPTH_LIMIT <= depth {
                return None;
            }
            mode = on_start(mode);
            if is_odd(mode) {
                return None;
            }
            depth += 1;
            i = lexer_scan::skip_space(s, i + 1);
            continue;
        }
        if b == b')' {
            if depth <= 1 {
                mode = on_last(mode);
                if is_odd(mode) {
                    return None;
                }
                depth = 0;
                t += 1;
                i = lexer_scan::skip_space(s, i + 1);
                continue;
            }
            mode = on_end(mode);
            if is_odd(mode) {
                return None;
            }
            depth -= 1;
            i = lexer_scan::skip_space(s, i + 1);
            continue;
        }
        if !may_take(mode) {
            return None;
        }
        if is_short(s, i) {
            p += 1;
            v += 1;
            i += 5;
            continue;
        }
        let Ident::Opens(k) = lexer_scan::ident_end(s, i) else {
            return None;
        };
        let Some((count, e)) = count_values(s, k) else {
            return None;
        };
        mode = on_property(s, mode, i, k);
        if is_odd(mode) {
            return None;
        }
        p += 1;
        v += count;
        i = e;
    }
}
