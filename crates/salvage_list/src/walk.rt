// The tree of a slice, walked for its entries: the stack of `parser_tree`, and no tables.
ghost use Rattle.std.specs.Prelude.{◌≡◌, true, ◌&&◌, [], ◌∷◌, ◌+◌, ◌*◌, ◌≤◌, length};
ghost use Rattle.lexer.specs.Token.{lex_at};
ghost use Rattle.lexer.specs.Step.{prop_at, vals_at};
ghost use Rattle.lists.specs.Put.{PutWhole};
ghost use Rattle.parser.specs.Game.{props, game_vals, game_props};
ghost use Rattle.salvage_mend.specs.Mend.{gms_among, gms_bad};
ghost use Rattle.salvage_mend.specs.Changes.{prop_change};
ghost use Rattle.salvage_list.specs.LocalsPuts.{entry_limit, EntriesPut, entry_kind};
ghost use Rattle.salvage_list.specs.LocalsWalk.{StandReady, StoodIs};

use lexer::Step;
use tables::NONE;

// Where a walk ends: the place behind the slice, the next node, property and entry; whether the tree is cut short, and at which place.
#[derive(Clone, Copy)]
pub struct Stood {
    pub next: usize,
    pub nodes: usize,
    pub properties: usize,
    pub entries: usize,
    pub cut: bool,
    pub place: usize,
}

// Entry e, where there is room; the number of the next.
pub fn put_entry(rows: &mut [u32], e: usize, kind: u32, number: usize, place: usize) -> usize
    requires { (e ≤ entry_limit) × (number ≤ entry_limit) × (place ≤ entry_limit) }
    ensures { (result ≡ e + 1) × PutWhole rows.old (e * 3) (kind ∷ number ∷ place ∷ []) rows.new }
{
    store_numbers::put(rows, e * 3, [kind, number as u32, place as u32]);
    e + 1
}

// What becomes of a property, by its raw identifier: 2 removed for its name, 4 removed for its game type, 3 spelled anew, 0 nothing.
fn kind_of(name: &[u8], bad: bool) -> u32
    ensures { result ≡ entry_kind bad name.now }
{
    if parts_props::reads_as(name, &name[..0]) {
        return 2;
    }
    if bad & parts_props::reads_as(name, b"GM") {
        return 4;
    }
    if parts_props::reads_as(name, name) {
        return 0;
    }
    3
}

// The entry of property p, which starts at i and whose first `[` is at k, if there is one.
fn put_property(
    s: &[u8],
    i: usize,
    k: usize,
    bad: bool,
    p: usize,
    e: usize,
    rows: &mut [u32],
) -> usize
    requires { (i ≤ k) × (k ≤ length s.now) × (e ≤ entry_limit) × (p ≤ entry_limit) }
    ensures { EntriesPut rows.old e (prop_change bad p (prop_at s.now i k)) result rows.new }
{
    let kind = kind_of(&s[i..k], bad);
    if kind == 0 {
        return e;
    }
    put_entry(rows, e, kind, p, 0)
}

// Do the values from k on give no game type.
fn no_game(s: &[u8], k: usize) -> bool
    ensures { result ≡ gms_bad (game_vals (vals_at s.now k)) }
{
    match parser_game::game_values(s, k) {
        Ok(_) => false,
        Err(_) => true,
    }
}

// Do the properties from a place on give no game type: of those that read GM there are two or more, or one without a valid value.
fn bad_root(s: &[u8], from: usize) -> bool
    ensures { result ≡ gms_bad (game_props (gms_among (props (lex_at s.now from).toks))) }
{
    let mut at = from;
    let mut found = false;
    let mut k: usize = 0;
    // A loop: `at` moves by the token that it finds.
    loop {
        let Step::Property(i, j, e) = lexer::next_token(s, at) else {
            break;
        };
        at = e;
        if parts_props::reads_as(&s[i..j], b"GM") {
            if found {
                return true;
            }
            found = true;
            k = j;
        }
    }
    if found {
        return no_game(s, k);
    }
    false
}

// Are a node's GMs to be removed: it is the first, and they give no game type.
fn bad_node(s: &[u8], at: usize, first: bool) -> bool
    ensures { result ≡ (first && gms_bad (game_props (gms_among (props (lex_at s.now at).toks)))) }
{
    if first {
        return bad_root(s, at);
    }
    false
}

// The slice that starts at a place, its first node numbered `base`, its first property p0: the entries of its properties from e0 on.
pub fn walk_slice(
    s: &[u8],
    from: usize,
    base: usize,
    p0: usize,
    e0: usize,
    rows: &mut [u32],
) -> Stood
    requires { StandReady s.now from base p0 e0 }
    ensures { StoodIs s.now from base p0 e0 rows.old result rows.new }
{
    let mut stack = [0u32; 1024];
    let mut at = from;
    let mut depth: usize = 0;
    let mut cur = NONE;
    let mut n = base;
    let mut follows = false;
    let mut bad = false;
    let mut p = p0;
    let mut e = e0;
    // A loop: `at` moves by the token that it finds.
    loop {
        match lexer::next_token(s, at) {
            Step::Start(i) => {
                if !parser_step::may_open(&stack, depth, base, n) {
                    return Stood {
                        next: parser_tree::skip_slice(s, at, depth),
                        nodes: n,
                        properties: p,
                        entries: e,
                        cut: true,
                        place: i,
                    };
                }
                stack[depth] = cur;
                depth += 1;
                follows = false;
                at = i + 1;
            }
            Step::End(i) => {
                if depth == 0 {
                    return Stood {
                        next: i + 1,
                        nodes: n,
                        properties: p,
                        entries: e,
                        cut: true,
                        place: i,
                    };
                }
                if depth == 1 {
                    return Stood {
                        next: i + 1,
                        nodes: n,
                        properties: p,
                        entries: e,
                        cut: false,
                        place: 0,
                    };
                }
                depth -= 1;
                cur = stack[depth];
                follows = false;
                at = i + 1;
            }
            Step::Node(i) => {
                bad = bad_node(s, i + 1, n == base);
                cur = n as u32;
                n += 1;
                follows = true;
                at = i + 1;
            }
            Step::Property(i, k, next) => {
                if !follows {
                    return Stood {
                        next: parser_tree::skip_slice(s, at, depth),
                        nodes: n,
                        properties: p,
                        entries: e,
                        cut: true,
                        place: i,
                    };
                }
                e = put_property(s, i, k, bad, p, e, rows);
                p += 1;
                at = next;
            }
            Step::Refused(_, _) => {
                return Stood {
                    next: at,
                    nodes: n,
                    properties: p,
                    entries: e,
                    cut: false,
                    place: 0,
                };
            }
            Step::Done => {
                return Stood {
                    next: at,
                    nodes: n,
                    properties: p,
                    entries: e,
                    cut: false,
                    place: 0,
                };
            }
        }
    }
}
