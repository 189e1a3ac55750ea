// The tally of a record in memory: its trees and nodes, its moves of each colour that are points, its passes.
#![tactic(auto)]

ghost use Rattle.std.specs.Prelude.{◌≡◌, true, [], ◌∷◌, ◌-◌, ◌^◌, ◌<◌, ◌≤◌};
ghost use Rattle.tables.specs.Memory.{memory};
ghost use Rattle.values.specs.Read.{read_identifier};
ghost use Rattle.parts.specs.Rows.{values_at};
ghost use Rattle.go.specs.Value.{is_go};
ghost use Rattle.fit.specs.Fit.{Fit};
ghost use Rattle.fit.specs.Record.{record_in};
ghost use Rattle.season_tag.specs.Tag.{tag_of};
ghost use Rattle.season_tally.specs.Tally.{moved_by, counts_as, tally_of, tally_answer, WriteTallyIs};
ghost use Rattle.season_tally.specs.Locals.{RootsLent, mover_of, played_at, next_first, one_played, Goes, Counted, BelowAll, TagsFirst, AlwaysMoves};

use go_points::Value;
use go_shape::Shape;
use season_totals::Tally;
use tables::{Counts, Reason};

// What a property counts as: a move of a colour to a point, a pass of either, or nothing.
#[derive(Clone, Copy)]
pub enum Played {
    Black,
    White,
    Passed,
    Nothing,
}

// Moves of each colour, and passes.
#[derive(Clone, Copy)]
pub struct Moves {
    pub black: usize,
    pub white: usize,
    pub passes: usize,
}

// A tag on its way: that of the first `at` bytes.
#[derive(Clone, Copy)]
pub struct Tagged {
    pub at: usize,
    pub tag: u64,
}

// What is counted, and the tag that goes on with it.
#[derive(Clone, Copy)]
pub struct Counting {
    pub moves: Moves,
    pub tagged: Tagged,
}

// A tally, and a tag.
#[derive(Clone, Copy)]
pub struct TallyTag {
    pub tally: Tally,
    pub tag: u64,
}

// A value of a colour's move: to a point it is that colour's, or a pass.
fn moved(mine: Played, value: Value) -> Played
    ensures { result ≡ moved_by mine value }
{
    match value {
        Value::Move(_, _) => mine,
        Value::Pass => Played::Passed,
        Value::Other => Played::Nothing,
        Value::Invalid => Played::Nothing,
        Value::Handicap(_) => Played::Nothing,
        Value::Points => Played::Nothing,
    }
}

// Whether a rule is one of Go's.
fn is_go(rule: u32) -> bool
    ensures { result ≡ is_go rule }
{
    (rule == 0) | (rule == 2)
}

// Whose move one byte names.
fn letter_mover(b: u8) -> Played
    ensures { result ≡ mover_of (read_identifier (b ∷ [])) }
{
    if b == b'B' {
        return Played::Black;
    }
    if b == b'W' {
        return Played::White;
    }
    Played::Nothing
}

// Whose move a raw identifier names: that of B, of W, or none. Most are one letter.
fn mover(identifier: &[u8]) -> Played
    ensures { result ≡ mover_of (read_identifier identifier.now) }
{
    if identifier.len() == 1 {
        return letter_mover(identifier[0]);
    }
    if parts_props::reads_as(identifier, b"B") {
        return Played::Black;
    }
    if parts_props::reads_as(identifier, b"W") {
        return Played::White;
    }
    Played::Nothing
}

// Whether the values are one, and a point under every rule: two small letters, the first before `t`. Most moves are.
fn is_point(text: &[u8], values: &[u32], first: usize, count: usize) -> bool
    ensures { result ≡ true → AlwaysMoves (values_at text.now values.now first count) }
{
    if count != 1 {
        return false;
    }
    matches!(
        parts::value_at(text, values, first, 0),
        [b'a'..=b's', b'a'..=b'z']
    )
}

// What property p counts as in a tree with this rule.
fn played_at(rule: u32, text: &[u8], properties: &[u32], values: &[u32], p: usize) -> Played
    ensures { result ≡ played_at rule text.now properties.now values.now p }
{
    if !is_go(rule) {
        return Played::Nothing;
    }
    if properties.len() / tables::PROPERTY_STRIDE <= p {
        return Played::Nothing;
    }
    let mine = mover(parts_props::identifier_at(text, properties, p));
    if let Played::Nothing = mine {
        return Played::Nothing;
    }
    let first = lists::wide(properties[p * tables::PROPERTY_STRIDE + tables::PROPERTY_FIRST]);
    let count = lists::wide(properties[p * tables::PROPERTY_STRIDE + tables::PROPERTY_COUNT]);
    if is_point(text, values, first, count) {
        return mine;
    }
    moved(
        mine,
        go::value::value_by(rule, Shape::OneMove, text, values, first, count),
    )
}

// One property more.
fn add(moves: Moves, what: Played) -> Moves
    requires { BelowAll moves (2 ^ 64 - 2) }
    ensures { result ≡ one_played moves what }
{
    match what {
        Played::Black => Moves {
            black: moves.black + 1,
            ..moves
        },
        Played::White => Moves {
            white: moves.white + 1,
            ..moves
        },
        Played::Passed => Moves {
            passes: moves.passes + 1,
            ..moves
        },
        Played::Nothing => moves,
    }
}

// The tag of eight bytes more, where there are so many.
fn tag_more(bytes: &[u8], tagged: Tagged) -> Tagged
    requires { TagsFirst bytes.now tagged }
    ensures { TagsFirst bytes.now result }
{
    let at = tagged.at;
    if bytes.len() - at < 8 {
        return tagged;
    }
    let to = at + 8;
    Tagged {
        at: to,
        tag: season_tag::tag_on(tagged.tag, &bytes[at..to]),
    }
}

// The properties from `from` up to `to`, of a tree with this rule. With each the tag goes on, so that the one is counted while the other waits for its product.
fn count_range(
    rule: u32,
    text: &[u8],
    properties: &[u32],
    values: &[u32],
    from: usize,
    to: usize,
    moves: Moves,
    bytes: &[u8],
    tagged: Tagged,
) -> Counting
    requires { (from ≤ to) × BelowAll moves from × TagsFirst bytes.now tagged }
    ensures { Goes (played_at rule text.now properties.now values.now) from moves to result.moves
        × TagsFirst bytes.now result.tagged }
{
    let mut sum = moves;
    let mut first = tagged;
    for p in from..to {
        first = tag_more(bytes, first);
        let what = played_at(rule, text, properties, values, p);
        sum = add(sum, what);
    }
    Counting {
        moves: sum,
        tagged: first,
    }
}

// The first property behind tree r: that of the next root, or the count of all.
fn next_first(trees: &[u32], m: usize, nodes: &[u32], r: usize, n: usize) -> usize
    requires { (r < m) × RootsLent m trees.now nodes.now }
    ensures { result ≡ next_first trees.now nodes.now m r n }
{
    if m <= r + 1 {
        return n;
    }
    let root = lists::wide(trees[(r + 1) * tables::TREE_STRIDE]);
    lists::wide(nodes[root * tables::NODE_STRIDE + tables::NODE_FIRST])
}

// All properties, tree by tree, and as much of the tag as goes with them.
fn count_moves(
    text: &[u8],
    used: usize,
    counts: Counts,
    trees: &[u32],
    nodes: &[u32],
    properties: &[u32],
    values: &[u32],
    bytes: &[u8],
) -> Counting
    requires { Fit
        (memory text.now used counts trees.now nodes.now properties.now values.now) ≡ true }
    ensures { Counted (counts_as (record_in
        (memory text.now used counts trees.now nodes.now properties.now values.now)))
        counts.properties result.moves
        × TagsFirst bytes.now result.tagged }
{
    let t = &text[..used];
    let m = counts.trees;
    let n = counts.properties;
    let mut moves = Moves {
        black: 0,
        white: 0,
        passes: 0,
    };
    let mut tagged = Tagged {
        at: 0,
        tag: season_tag::tag(&bytes[..0]),
    };
    let mut from: usize = 0;
    for r in 0..m {
        let to = next_first(trees, m, nodes, r, n);
        let rule = fit_rule::rule_at(t, trees, nodes, properties, values, r);
        let more = count_range(rule, t, properties, values, from, to, moves, bytes, tagged);
        moves = more.moves;
        tagged = more.tagged;
        from = to;
    }
    Counting {
        moves: moves,
        tagged: tagged,
    }
}

// The tally of tables that are known to fit, and the tag of the bytes.
fn count(
    text: &[u8],
    used: usize,
    counts: Counts,
    trees: &[u32],
    nodes: &[u32],
    properties: &[u32],
    values: &[u32],
    bytes: &[u8],
) -> TallyTag
    requires { Fit
        (memory text.now used counts trees.now nodes.now properties.now values.now) ≡ true }
    ensures { (result.tally ≡ tally_of (record_in
        (memory text.now used counts trees.now nodes.now properties.now values.now)))
        × (result.tag ≡ tag_of bytes.now) }
{
    let all = count_moves(text, used, counts, trees, nodes, properties, values, bytes);
    let moves = all.moves;
    let tagged = all.tagged;
    let at = tagged.at;
    TallyTag {
        tally: Tally {
            trees: counts.trees,
            nodes: counts.nodes,
            black: moves.black,
            white: moves.white,
            passes: moves.passes,
        },
        tag: season_tag::tag_on(tagged.tag, &bytes[at..]),
    }
}

// The tally of a record, or 19.
pub fn tally(
    text: &[u8],
    used: usize,
    counts: Counts,
    trees: &[u32],
    nodes: &[u32],
    properties: &[u32],
    values: &[u32],
) -> Option<Tally>
    ensures { result ≡ tally_answer
        (memory text.now used counts trees.now nodes.now properties.now values.now) }
{
    if !fit::fits(text, used, counts, trees, nodes, properties, values) {
        return None;
    }
    let all = count(
        text,
        used,
        counts,
        trees,
        nodes,
        properties,
        values,
        &text[..0],
    );
    let tally = all.tally;
    Some(tally)
}

// The tally of a record that is written into `out`, and the tag of its writing: one fitting check for all. Refused as the writer does: 19, 15, 14.
pub fn write_tally(
    text: &[u8],
    used: usize,
    counts: Counts,
    trees: &[u32],
    nodes: &[u32],
    properties: &[u32],
    values: &[u32],
    out: &mut [u8],
) -> Result<(usize, Tally, u64), Reason>
    ensures { WriteTallyIs
        (memory text.now used counts trees.now nodes.now properties.now values.now)
        out.old out.new result }
{
    match serialize::write(text, used, counts, trees, nodes, properties, values, out) {
        Err(reason) => Err(reason),
        Ok(n) => {
            let all = count(
                text,
                used,
                counts,
                trees,
                nodes,
                properties,
                values,
                &out[..n],
            );
            let tally = all.tally;
            Ok((n, tally, all.tag))
        }
    }
}
