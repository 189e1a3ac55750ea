// The board at a node of a Go tree, played from its root; and one node more upon a board.
#![tactic(auto)]

ghost use Rattle.std.specs.Prelude.{◌≡◌, map, ◌/◌, ◌<◌, ◌≤◌, length};
ghost use Rattle.parts_props.specs.Props.{properties_at};
ghost use Rattle.tables.specs.Columns.{tree_stride, node_stride};
ghost use Rattle.tables.specs.Memory.{memory};
ghost use Rattle.board_node.specs.Answer.{position_of, answer_of, NodeIs};
ghost use Rattle.board_node.specs.Seen.{MoveSeenIs};
ghost use Rattle.board_path.specs.Way.{way_to};
ghost use Rattle.board.specs.Answer.{tree_over, node_properties, refused_board, shown_board, BoardIs, NextBoardIs};
ghost use Rattle.board.specs.Locals.{start_state, SidesRight, WayWalk, WayAnswer, WayPlayed};

use board_acts::{BoardState, Sums};
use board_node::{MoveSeen, Turn};
use go_size::RootSize;
use tables::Counts;

// A number; the sides of the board; stones put on and taken off so far, of each colour; what stands at each point. Where the number is not 0, all else is 0.
#[repr(C)]
#[derive(Drop)]
pub struct SgfBoard {
    pub number: u32,
    pub columns: u32,
    pub rows: u32,
    pub reserved: u32,
    pub black: Sums,
    pub white: Sums,
    pub stones: [u8; 2704],
}

// No board: a number, and all else 0.
fn refuse(number: u32) -> SgfBoard
    ensures { result ≡ refused_board number }
{
    let none = [0u8; 2704];
    let black = Sums { on: 0, off: 0 };
    let white = Sums { on: 0, off: 0 };
    SgfBoard {
        number: number,
        columns: 0,
        rows: 0,
        reserved: 0,
        black: black,
        white: white,
        stones: none,
    }
}

// The properties of `count` rows from `first` on, played upon a board; a board that is refused is given back.
pub fn board_next(
    board: SgfBoard,
    text: &[u8],
    properties: &[u32],
    values: &[u32],
    first: usize,
    count: usize,
) -> SgfBoard
    ensures { NextBoardIs (properties_at text.now properties.now values.now first count) board result }
{
    let number = board.number;
    let black = board.black;
    let white = board.white;
    let mut stones = board.stones;
    if number != 0 {
        return SgfBoard {
            number: number,
            columns: board.columns,
            rows: board.rows,
            reserved: 0,
            black: black,
            white: white,
            stones: stones,
        };
    }
    let state = BoardState {
        black: black,
        white: white,
        settled: false,
    };
    let turn = board_node::play_upon(
        &mut stones,
        state,
        lists::wide(board.columns),
        lists::wide(board.rows),
        text,
        properties,
        values,
        first,
        count,
    );
    let refused = turn.refused;
    if refused {
        return refuse(23);
    }
    let then = turn.state;
    let blacks = then.black;
    let whites = then.white;
    SgfBoard {
        number: 0,
        columns: board.columns,
        rows: board.rows,
        reserved: 0,
        black: blacks,
        white: whites,
        stones: stones,
    }
}

// Plays the properties of node `at` upon a board.
fn play_at(
    stones: &mut [u8; 2704],
    state: BoardState,
    columns: usize,
    rows: usize,
    text: &[u8],
    nodes: &[u32],
    properties: &[u32],
    values: &[u32],
    at: usize,
) -> Turn
    requires { at < length nodes.now / node_stride }
    ensures { NodeIs columns rows (node_properties text.now nodes.now properties.now values.now at)
        (position_of stones.old state) (answer_of result.refused stones.new result.state) }
{
    let first = lists::wide(nodes[at * tables::NODE_STRIDE + tables::NODE_FIRST]);
    let count = lists::wide(nodes[at * tables::NODE_STRIDE + tables::NODE_COUNT]);
    board_node::play_upon(
        stones, state, columns, rows, text, properties, values, first, count,
    )
}

// No sums yet, on an empty board.
fn start() -> BoardState
    ensures { result ≡ start_state }
{
    let black = Sums { on: 0, off: 0 };
    let white = Sums { on: 0, off: 0 };
    BoardState {
        black: black,
        white: white,
        settled: true,
    }
}

// The move of node `at`, where that is all that the node does and it is seen at once.
fn seen_at(
    columns: usize,
    rows: usize,
    text: &[u8],
    nodes: &[u32],
    properties: &[u32],
    values: &[u32],
    at: usize,
) -> MoveSeen
    requires { at < length nodes.now / node_stride }
    ensures { MoveSeenIs columns rows (node_properties text.now nodes.now properties.now values.now at) result }
{
    let first = lists::wide(nodes[at * tables::NODE_STRIDE + tables::NODE_FIRST]);
    let count = lists::wide(nodes[at * tables::NODE_STRIDE + tables::NODE_COUNT]);
    board_node::seen_move(columns, rows, text, properties, values, first, count)
}

// How far a run of moves came: to which node, and the sums there.
#[derive(Clone, Copy)]
pub struct RunEnd {
    pub at: usize,
    pub state: BoardState,
}

// Plays the nodes behind `from` on the way to k, as long as the board is known to be settled and each has one move alone that is seen at once.
fn play_run(
    stones: &mut [u8; 2704],
    state: BoardState,
    columns: usize,
    rows: usize,
    text: &[u8],
    nodes: &[u32],
    properties: &[u32],
    values: &[u32],
    n: usize,
    root: usize,
    from: usize,
    k: usize,
) -> RunEnd
    requires { WayWalk nodes.now root k n × WayPlayed columns rows nodes.now
        (node_properties text.now nodes.now properties.now values.now) k from stones.old state }
    ensures { WayPlayed columns rows nodes.now
        (node_properties text.now nodes.now properties.now values.now) k result.at stones.new result.state
        × (from ≤ result.at) }
{
    let mut at = from;
    let mut then = state;
    // A while: at follows the nodes of the way.
    while at < k {
        let settled = then.settled;
        if !settled {
            return RunEnd {
                at: at,
                state: then,
            };
        }
        let next = board_path::next_on(nodes, at, k);
        let seen = seen_at(columns, rows, text, nodes, properties, values, next);
        let colour = seen.colour;
        if colour == 0 {
            return RunEnd {
                at: at,
                state: then,
            };
        }
        then = board_acts::play_settled(stones, then, columns, rows, seen.place, colour);
        at = next;
    }
    RunEnd {
        at: at,
        state: then,
    }
}

// Plays the nodes from the root down to k upon an empty board.
fn play_way(
    columns: usize,
    rows: usize,
    text: &[u8],
    nodes: &[u32],
    properties: &[u32],
    values: &[u32],
    n: usize,
    root: usize,
    k: usize,
) -> SgfBoard
    requires { SidesRight columns rows × WayWalk nodes.now root k n }
    ensures { WayAnswer columns rows
        (map (node_properties text.now nodes.now properties.now values.now) (way_to nodes.now k)) result }
{
    let mut stones = [0u8; 2704];
    let first = play_at(
        &mut stones,
        start(),
        columns,
        rows,
        text,
        nodes,
        properties,
        values,
        root,
    );
    let bad = first.refused;
    if bad {
        return refuse(23);
    }
    let begun = play_run(
        &mut stones,
        first.state,
        columns,
        rows,
        text,
        nodes,
        properties,
        values,
        n,
        root,
        root,
        k,
    );
    let mut state = begun.state;
    let mut at = begun.at;
    // A while: at follows the nodes of the way.
    while at < k {
        at = board_path::next_on(nodes, at, k);
        let turn = play_at(
            &mut stones,
            state,
            columns,
            rows,
            text,
            nodes,
            properties,
            values,
            at,
        );
        let off = turn.refused;
        if off {
            return refuse(23);
        }
        let run = play_run(
            &mut stones,
            turn.state,
            columns,
            rows,
            text,
            nodes,
            properties,
            values,
            n,
            root,
            at,
            k,
        );
        state = run.state;
        at = run.at;
    }
    let black = state.black;
    let white = state.white;
    SgfBoard {
        number: 0,
        columns: columns as u32,
        rows: rows as u32,
        reserved: 0,
        black: black,
        white: white,
        stones: stones,
    }
}

// The tree that has node k: the last of n whose root is not behind k.
fn tree_over(trees: &[u32], k: usize, n: usize) -> usize
    requires { n ≤ length trees.now / tree_stride }
    ensures { result ≡ tree_over trees.now k n }
{
    for t in (0..n).rev() {
        if lists::wide(trees[t * tables::TREE_STRIDE]) <= k {
            return t;
        }
    }
    0
}

// The board at node k, played from its root; or its number: 19, 21, 22, 23.
pub fn board(
    text: &[u8],
    used: usize,
    counts: Counts,
    trees: &[u32],
    nodes: &[u32],
    properties: &[u32],
    values: &[u32],
    k: usize,
) -> SgfBoard
    ensures { BoardIs
        (memory text.now used counts trees.now nodes.now properties.now values.now) k result }
{
    if !fit::fits(text, used, counts, trees, nodes, properties, values) {
        return refuse(19);
    }
    if counts.nodes <= k {
        return refuse(21);
    }
    let tree = tree_over(trees, k, counts.trees);
    if trees[tree * tables::TREE_STRIDE + tables::TREE_GAME] != 0 {
        return refuse(21);
    }
    let root = lists::wide(trees[tree * tables::TREE_STRIDE]);
    let first = lists::wide(nodes[root * tables::NODE_STRIDE + tables::NODE_FIRST]);
    let count = lists::wide(nodes[root * tables::NODE_STRIDE + tables::NODE_COUNT]);
    let part = &text[..used];
    match go_size::size_in(part, properties, values, first, count) {
        RootSize::Absent => play_way(
            19,
            19,
            part,
            nodes,
            properties,
            values,
            counts.nodes,
            root,
            k,
        ),
        RootSize::Sized(x, y) => play_way(
            x,
            y,
            part,
            nodes,
            properties,
            values,
            counts.nodes,
            root,
            k,
        ),
        RootSize::Wrong => refuse(22),
    }
}
