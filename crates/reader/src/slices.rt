// The trees of all slices, into the tables: a run that counts, the room, the run that writes, the links and the depths.
ghost use Rattle.std.specs.Prelude.{◌≡◌, true};
ghost use Rattle.lexer.specs.Token.{lex_at};
ghost use Rattle.parser.specs.Game.{is, find_gametype};
ghost use Rattle.parser.specs.Read.{answer};
ghost use Rattle.parser.specs.LocalsSlice.{slice_from, first_slices};
ghost use Rattle.parser_game.specs.LocalsGame.{type_of};
ghost use Rattle.reader.specs.Lent.{lent, room_for, rows_counted, ReadIs};
ghost use Rattle.reader.specs.LocalsSlices.{leniently, read_of, SlicesReady, GoIf, FillReady, TreesIs, CountIs};

use tables::{Counts, Reason, Refusal};

// The game type of the slice at a place; lenient reading turns a refusal into Go.
fn type_or_go(s: &[u8], at: usize, lenient: bool) -> Result<u32, Reason>
    ensures { result ≡ type_of (leniently lenient (find_gametype (slice_from 0 (lex_at s.now at).toks))) }
{
    match parser_game::game_type(s, at) {
        Ok(game) => Ok(game),
        Err(reason) => {
            if lenient {
                return Ok(0);
            }
            Err(reason)
        }
    }
}

// The same, where it may be known that it is Go.
fn type_unless(s: &[u8], at: usize, lenient: bool, go: bool) -> Result<u32, Reason>
    requires { go ≡ true → find_gametype (slice_from 0 (lex_at s.now at).toks) ≡ is 0 }
    ensures { result ≡ type_of (leniently lenient (find_gametype (slice_from 0 (lex_at s.now at).toks))) }
{
    if go {
        return Ok(0);
    }
    type_or_go(s, at, lenient)
}

// The trees of `count` slices from a place on, into the tables where they have room.
fn read_trees(
    s: &[u8],
    from: usize,
    count: usize,
    lenient: bool,
    go: bool,
    trees: &mut [u32],
    nodes: &mut [u32],
    properties: &mut [u32],
    values: &mut [u32],
) -> Result<(usize, usize, usize), Reason>
    requires { SlicesReady lenient s.now from count × GoIf go (first_slices count (lex_at s.now from).toks) }
    ensures { TreesIs (read_of lenient count (lex_at s.now from).toks) count
        (lent trees.old nodes.old properties.old values.old)
        (lent trees.new nodes.new properties.new values.new)
        result }
{
    let mut at = from;
    let mut n: usize = 0;
    let mut p: usize = 0;
    let mut v: usize = 0;
    for k in 0..count {
        match type_unless(s, at, lenient, go) {
            Err(reason) => return Err(reason),
            Ok(game) => {
                match parser_tree::walk_tree(s, at, lenient, n, p, v, nodes, properties, values) {
                    Err(reason) => return Err(reason),
                    Ok((next, node, property, value)) => {
                        store_numbers::put(trees, k * tables::TREE_STRIDE, [n as u32, game]);
                        at = next;
                        n = node;
                        p = property;
                        v = value;
                    }
                }
            }
        }
    }
    Ok((n, p, v))
}

// Are so many rows lent: numbers divided by the stride.
fn has_room(counts: Counts, trees: usize, nodes: usize, properties: usize, values: usize) -> bool
    ensures { result ≡ room_for counts trees nodes properties values }
{
    (counts.trees <= trees / tables::TREE_STRIDE)
        & (counts.nodes <= nodes / tables::NODE_STRIDE)
        & (counts.properties <= properties / tables::PROPERTY_STRIDE)
        & (counts.values <= values / tables::VALUE_STRIDE)
}

// How many rows the trees of `count` slices have: a run over tables of its own, in which no row has room.
fn count_rows(
    s: &[u8],
    from: usize,
    count: usize,
    lenient: bool,
) -> Result<(usize, usize, usize), Reason>
    requires { SlicesReady lenient s.now from count }
    ensures { CountIs (read_of lenient count (lex_at s.now from).toks) count result }
{
    let mut trees = [0u32; 1];
    let mut nodes = [0u32; 1];
    let mut properties = [0u32; 1];
    let mut values = [0u32; 1];
    read_trees(
        s,
        from,
        count,
        lenient,
        false,
        &mut trees,
        &mut nodes,
        &mut properties,
        &mut values,
    )
}

// The trees of slices whose rows are counted, so that a refusal has written nothing.
pub fn fill(
    s: &[u8],
    from: usize,
    counts: Counts,
    lenient: bool,
    go: bool,
    trees: &mut [u32],
    nodes: &mut [u32],
    properties: &mut [u32],
    values: &mut [u32],
) -> Result<Counts, Refusal<Reason>>
    requires { FillReady lenient go s.now from counts }
    ensures { ReadIs (answer (read_of lenient counts.trees (lex_at s.now from).toks))
        (lent trees.old nodes.old properties.old values.old)
        (lent trees.new nodes.new properties.new values.new)
        result }
{
    if !has_room(
        counts,
        trees.len(),
        nodes.len(),
        properties.len(),
        values.len(),
    ) {
        return Err(Refusal {
            reason: Reason::NoRoom,
            place: 0,
        });
    }
    let _ = read_trees(
        s,
        from,
        counts.trees,
        lenient,
        go,
        trees,
        nodes,
        properties,
        values,
    );
    tables::link_nodes(nodes, counts.nodes);
    tables::level_nodes(nodes, counts.nodes);
    Ok(counts)
}

// The trees of `count` slices from a place on: the rows are counted first.
pub fn read_slices(
    s: &[u8],
    from: usize,
    count: usize,
    lenient: bool,
    trees: &mut [u32],
    nodes: &mut [u32],
    properties: &mut [u32],
    values: &mut [u32],
) -> Result<Counts, Refusal<Reason>>
    requires { SlicesReady lenient s.now from count }
    ensures { ReadIs (answer (read_of lenient count (lex_at s.now from).toks))
        (lent trees.old nodes.old properties.old values.old)
        (lent trees.new nodes.new properties.new values.new)
        result }
{
    match count_rows(s, from, count, lenient) {
        Err(reason) => Err(Refusal { reason, place: 0 }),
        Ok((n, p, v)) => {
            let counts = Counts {
                trees: count,
                nodes: n,
                properties: p,
                values: v,
            };
            fill(
                s, from, counts, lenient, false, trees, nodes, properties, values,
            )
        }
    }
}

// How many rows the trees of `count` slices from a place on have, or why there are no trees.
pub fn count_slices(
    s: &[u8],
    from: usize,
    count: usize,
    lenient: bool,
) -> Result<Counts, Refusal<Reason>>
    requires { SlicesReady lenient s.now from count }
    ensures { result ≡ rows_counted (answer (read_of lenient count (lex_at s.now from).toks)) }
{
    match count_rows(s, from, count, lenient) {
        Err(reason) => Err(Refusal { reason, place: 0 }),
        Ok((n, p, v)) => Ok(Counts {
            trees: count,
            nodes: n,
            properties: p,
            values: v,
        }),
    }
}
