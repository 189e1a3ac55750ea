// The acts of one node upon a position: what its setup sets, then what its moves play.
#![tactic(auto)]

ghost use Rattle.std.specs.Prelude.{◌≡◌, true, List, [], ◌∷◌, ℕ, ◌-◌, ◌/◌, ◌<◌, ◌≤◌, length};
ghost use Rattle.values.specs.Read.{read_identifier};
ghost use Rattle.tables.specs.Columns.{property_stride};
ghost use Rattle.tables.specs.Each.{tabulate};
ghost use Rattle.go_points.specs.Area.{letter_of};
ghost use Rattle.go_points.specs.declared.Value.TheVariants.{Move};
ghost use Rattle.parts.specs.Rows.{value_at};
ghost use Rattle.parts_props.specs.Props.{identifier_at, property_at, properties_at};
ghost use Rattle.board_play.specs.Play.{Player};
ghost use Rattle.board_play.specs.Steps.{sets};
ghost use Rattle.board_node.specs.Node.{setup_colour, move_colour, sets_from, move_acts, setups_of, moves_of, all_setups, all_moves};
ghost use Rattle.board_node.specs.Answer.{no_state, position_of, answer_of, refused_node, NodeIs};
ghost use Rattle.board_node.specs.LocalsTurn.{TurnIs, MovesIs, SetupsFrom, SetupIs};
ghost use Rattle.board_node.specs.LocalsSeen.{Idle, PointSeen, ValueSeen, RowSeen};
ghost use Rattle.board_node.specs.Seen.{MoveSeenIs};

use board_acts::{BoardState, Sums};
use go_points::Value;
use go_shape::Shape;

// What stands at each place, and the sums.
#[derive(Drop)]
pub struct Position {
    pub stones: [u8; 2704],
    pub state: BoardState,
}

// A node played, or refused: then nothing stands and the sums are 0.
#[derive(Drop)]
pub struct NodeAnswer {
    pub refused: bool,
    pub position: Position,
}

// What one step leaves: whether it is refused, and the sums.
#[derive(Clone, Copy)]
pub struct Turn {
    pub refused: bool,
    pub state: BoardState,
}

// A move that is seen at once: whose it is, and its place; colour 0 where none is seen.
#[derive(Clone, Copy)]
pub struct MoveSeen {
    pub colour: u8,
    pub place: usize,
}

// The colour that a setup property sets, or 3.
fn setup_colour(identifier: &[u8]) -> u8
    ensures { result ≡ setup_colour (read_identifier identifier.now) }
{
    if parts_props::reads_as(identifier, b"AB") {
        return 1;
    }
    if parts_props::reads_as(identifier, b"AW") {
        return 2;
    }
    if parts_props::reads_as(identifier, b"AE") {
        return 0;
    }
    3
}

// The colour that a move has, or 0.
fn move_colour(identifier: &[u8]) -> u8
    ensures { result ≡ move_colour (read_identifier identifier.now) }
{
    if parts_props::reads_as(identifier, b"B") {
        return 1;
    }
    if parts_props::reads_as(identifier, b"W") {
        return 2;
    }
    0
}

// Sets one place, unless it is off the board or was set before.
fn set_place(
    stones: &mut [u8; 2704],
    seen: &mut [bool; 2704],
    state: BoardState,
    columns: usize,
    rows: usize,
    p: usize,
    colour: u8,
) -> Turn
    requires { colour < 3 }
    ensures { TurnIs columns rows (sets colour p ∷ []) seen.old stones.old state
        seen.new stones.new result.state result.refused }
{
    if !board_take::on_board(p, columns, rows) {
        return Turn {
            refused: true,
            state: state,
        };
    }
    if seen[p] {
        return Turn {
            refused: true,
            state: state,
        };
    }
    seen[p] = true;
    let then = board_acts::set_act(stones, state, columns, rows, p, colour);
    Turn {
        refused: false,
        state: then,
    }
}

// Sets every marked place, ascending.
fn set_places(
    stones: &mut [u8; 2704],
    seen: &mut [bool; 2704],
    marks: &[bool; 2704],
    state: BoardState,
    columns: usize,
    rows: usize,
    colour: u8,
) -> Turn
    requires { (colour < 3) × (length marks.now ≡ 2704) }
    ensures { TurnIs columns rows (sets_from colour 0 marks.now) seen.old stones.old state
        seen.new stones.new result.state result.refused }
{
    let mut then = state;
    for p in 0..2704usize {
        if !marks[p] {
            continue;
        }
        let turn = set_place(stones, seen, then, columns, rows, p, colour);
        if turn.refused {
            return turn;
        }
        then = turn.state;
    }
    Turn {
        refused: false,
        state: then,
    }
}

// Does the setup of property p.
fn set_row(
    stones: &mut [u8; 2704],
    seen: &mut [bool; 2704],
    state: BoardState,
    columns: usize,
    rows: usize,
    text: &[u8],
    properties: &[u32],
    values: &[u32],
    p: usize,
) -> Turn
    requires { p < length properties.now / property_stride }
    ensures { TurnIs columns rows (setups_of (property_at text.now properties.now values.now p))
        seen.old stones.old state seen.new stones.new result.state result.refused }
{
    let identifier = parts_props::identifier_at(text, properties, p);
    let colour = setup_colour(identifier);
    if 2 < colour {
        return Turn {
            refused: false,
            state: state,
        };
    }
    let start = lists::wide(properties[p * tables::PROPERTY_STRIDE + tables::PROPERTY_FIRST]);
    let many = lists::wide(properties[p * tables::PROPERTY_STRIDE + tables::PROPERTY_COUNT]);
    let go = go::value::go_value(0, identifier, text, values, start, many);
    set_places(stones, seen, &go.marks, state, columns, rows, colour)
}

// Does the setup of the properties from row `first` up to row `to`.
fn set_rows(
    stones: &mut [u8; 2704],
    seen: &mut [bool; 2704],
    state: BoardState,
    columns: usize,
    rows: usize,
    text: &[u8],
    properties: &[u32],
    values: &[u32],
    first: usize,
    to: usize,
) -> Turn
    requires { first < to → to ≤ length properties.now / property_stride }
    ensures { TurnIs columns rows
        (all_setups (tabulate (property_at text.now properties.now values.now) first (to - first)))
        seen.old stones.old state seen.new stones.new result.state result.refused }
{
    let mut then = state;
    for p in first..to {
        let turn = set_row(
            stones, seen, then, columns, rows, text, properties, values, p,
        );
        if turn.refused {
            return turn;
        }
        then = turn.state;
    }
    Turn {
        refused: false,
        state: then,
    }
}

// The first row from `first` on up to `to` that sets something, or the last one.
fn setup_from(text: &[u8], properties: &[u32], first: usize, to: usize) -> usize
    ensures { (vl : List ℕ) → SetupsFrom (property_at text.now properties.now vl) first to result }
{
    for p in first..to {
        let identifier = parts_props::identifier_at(text, properties, p);
        if setup_colour(identifier) < 3 {
            return p;
        }
    }
    first.max(to)
}

// Does the setup of the properties from row `first` up to row `to`, where nothing was set before.
fn set_all(
    stones: &mut [u8; 2704],
    state: BoardState,
    columns: usize,
    rows: usize,
    text: &[u8],
    properties: &[u32],
    values: &[u32],
    first: usize,
    to: usize,
) -> Turn
    requires { first < to → to ≤ length properties.now / property_stride }
    ensures { SetupIs columns rows
        (all_setups (tabulate (property_at text.now properties.now values.now) first (to - first)))
        stones.old state stones.new result.state result.refused }
{
    let from = setup_from(text, properties, first, to);
    if to <= from {
        return Turn {
            refused: false,
            state: state,
        };
    }
    let mut seen = [false; 2704];
    set_rows(
        stones, &mut seen, state, columns, rows, text, properties, values, from, to,
    )
}

// Plays the move to (x, y): a pass where it is `tt` on a board up to 19 by 19.
fn play_move(
    stones: &mut [u8; 2704],
    state: BoardState,
    columns: usize,
    rows: usize,
    x: u8,
    y: u8,
    colour: u8,
) -> Turn
    requires { Player colour }
    ensures { MovesIs columns rows (move_acts columns rows colour (Move x y)) stones.old state stones.new result.state result.refused }
{
    if ((columns <= 19) & (rows <= 19)) & ((x == 19) & (y == 19)) {
        return Turn {
            refused: false,
            state: state,
        };
    }
    let p = 52 * (x as usize) + (y as usize);
    if !board_take::on_board(p, columns, rows) {
        return Turn {
            refused: true,
            state: state,
        };
    }
    let then = board_acts::play_act(stones, state, columns, rows, p, colour);
    Turn {
        refused: false,
        state: then,
    }
}

// Plays the move of property p.
fn play_row(
    stones: &mut [u8; 2704],
    state: BoardState,
    columns: usize,
    rows: usize,
    text: &[u8],
    properties: &[u32],
    values: &[u32],
    p: usize,
) -> Turn
    requires { p < length properties.now / property_stride }
    ensures { MovesIs columns rows (moves_of columns rows (property_at text.now properties.now values.now p))
        stones.old state stones.new result.state result.refused }
{
    let identifier = parts_props::identifier_at(text, properties, p);
    let colour = move_colour(identifier);
    if colour < 1 {
        return Turn {
            refused: false,
            state: state,
        };
    }
    let start = lists::wide(properties[p * tables::PROPERTY_STRIDE + tables::PROPERTY_FIRST]);
    let many = lists::wide(properties[p * tables::PROPERTY_STRIDE + tables::PROPERTY_COUNT]);
    let value = go::value::value_by(2, Shape::OneMove, text, values, start, many);
    let Value::Move(x, y) = value else {
        return Turn {
            refused: false,
            state: state,
        };
    };
    play_move(stones, state, columns, rows, x, y, colour)
}

// Plays the moves of the properties from row `first` up to row `to`.
fn play_rows(
    stones: &mut [u8; 2704],
    state: BoardState,
    columns: usize,
    rows: usize,
    text: &[u8],
    properties: &[u32],
    values: &[u32],
    first: usize,
    to: usize,
) -> Turn
    requires { first < to → to ≤ length properties.now / property_stride }
    ensures { MovesIs columns rows
        (all_moves columns rows (tabulate (property_at text.now properties.now values.now) first (to - first)))
        stones.old state stones.new result.state result.refused }
{
    let mut then = state;
    for p in first..to {
        let turn = play_row(stones, then, columns, rows, text, properties, values, p);
        if turn.refused {
            return turn;
        }
        then = turn.state;
    }
    Turn {
        refused: false,
        state: then,
    }
}

// Nothing put on or taken off, on a board of which nothing is known.
fn no_state() -> BoardState
    ensures { result ≡ no_state }
{
    let black = Sums { on: 0, off: 0 };
    let white = Sums { on: 0, off: 0 };
    BoardState {
        black: black,
        white: white,
        settled: false,
    }
}

// A refused node: nothing stands, the sums are 0.
fn refuse(stones: &mut [u8; 2704]) -> Turn
    ensures { answer_of result.refused stones.new result.state ≡ refused_node }
{
    *stones = [0u8; 2704];
    Turn {
        refused: true,
        state: no_state(),
    }
}

// Plays the properties of `count` rows from `first` on upon a board: setup first, then moves, each in property order. A refusal leaves it empty.
pub fn play_upon(
    stones: &mut [u8; 2704],
    state: BoardState,
    columns: usize,
    rows: usize,
    text: &[u8],
    properties: &[u32],
    values: &[u32],
    first: usize,
    count: usize,
) -> Turn
    ensures { NodeIs columns rows (properties_at text.now properties.now values.now first count)
        (position_of stones.old state) (answer_of result.refused stones.new result.state) }
{
    let to = first + parts_props::row_count(properties, first, count);
    let set = set_all(
        stones, state, columns, rows, text, properties, values, first, to,
    );
    let bad = set.refused;
    if bad {
        return refuse(stones);
    }
    let played = play_rows(
        stones, set.state, columns, rows, text, properties, values, first, to,
    );
    let off = played.refused;
    if off {
        return refuse(stones);
    }
    played
}

// The same upon a position, which is given back.
pub fn play_node(
    position: Position,
    columns: usize,
    rows: usize,
    text: &[u8],
    properties: &[u32],
    values: &[u32],
    first: usize,
    count: usize,
) -> NodeAnswer
    ensures { NodeIs columns rows (properties_at text.now properties.now values.now first count) position result }
{
    let mut stones = position.stones;
    let turn = play_upon(
        &mut stones,
        position.state,
        columns,
        rows,
        text,
        properties,
        values,
        first,
        count,
    );
    let state = turn.state;
    let then = Position {
        stones: stones,
        state: state,
    };
    NodeAnswer {
        refused: turn.refused,
        position: then,
    }
}

// Whose move one letter names.
fn letter_colour(b: u8) -> u8
    ensures { result ≡ move_colour (read_identifier (b ∷ [])) }
{
    if b == b'B' {
        return 1;
    }
    if b == b'W' {
        return 2;
    }
    0
}

// No move is seen.
fn unseen() -> MoveSeen
    ensures { result.colour ≡ 0 }
{
    MoveSeen {
        colour: 0,
        place: 0,
    }
}

// The move of two small letters, where they name a point of the board.
fn seen_point(columns: usize, rows: usize, a: u8, b: u8, colour: u8) -> MoveSeen
    ensures { PointSeen columns rows colour (letter_of a) (letter_of b) result }
{
    if !a.is_ascii_lowercase() || !b.is_ascii_lowercase() {
        return unseen();
    }
    let i = (a - b'a') as usize;
    let j = (b - b'a') as usize;
    if columns <= i {
        return unseen();
    }
    if rows <= j {
        return unseen();
    }
    MoveSeen {
        colour: colour,
        place: 52 * i + j,
    }
}

// The move of the value of row v, where it has two bytes.
fn seen_value(
    columns: usize,
    rows: usize,
    text: &[u8],
    values: &[u32],
    v: usize,
    colour: u8,
) -> MoveSeen
    ensures { ValueSeen columns rows colour (value_at text.now values.now v) result }
{
    if values.len() / 2 <= v {
        return unseen();
    }
    let at = lists::wide(values[v * 2]);
    let end = lists::wide(values[v * 2 + 1]);
    if end <= at {
        return unseen();
    }
    if end - at != 2 {
        return unseen();
    }
    if text.len() < end {
        return unseen();
    }
    seen_point(columns, rows, text[at], text[at + 1], colour)
}

// Whose move property p is, where it is named by one letter; 0 where it is none, or by more.
fn seen_mover(text: &[u8], properties: &[u32], p: usize) -> u8
    requires { p < length properties.now / property_stride }
    ensures { 1 ≤ result → result ≡ move_colour (read_identifier (identifier_at text.now properties.now p)) }
{
    let at = lists::wide(properties[p * tables::PROPERTY_STRIDE]);
    let end = lists::wide(properties[p * tables::PROPERTY_STRIDE + tables::PROPERTY_END]);
    if end <= at {
        return 0;
    }
    if end - at != 1 {
        return 0;
    }
    if text.len() <= at {
        return 0;
    }
    letter_colour(text[at])
}

// The move of property p, where it is named by one letter and has one value of two letters.
fn seen_row(
    columns: usize,
    rows: usize,
    text: &[u8],
    properties: &[u32],
    values: &[u32],
    p: usize,
) -> MoveSeen
    requires { p < length properties.now / property_stride }
    ensures { RowSeen columns rows (property_at text.now properties.now values.now p) result }
{
    let colour = seen_mover(text, properties, p);
    if colour < 1 {
        return unseen();
    }
    let many = lists::wide(properties[p * tables::PROPERTY_STRIDE + tables::PROPERTY_COUNT]);
    if many != 1 {
        return unseen();
    }
    let start = lists::wide(properties[p * tables::PROPERTY_STRIDE + tables::PROPERTY_FIRST]);
    seen_value(columns, rows, text, values, start, colour)
}

// Whether one letter names neither setup nor a move.
fn idle_letter(b: u8) -> bool
    ensures { result ≡ true → Idle (read_identifier (b ∷ [])) }
{
    letter_colour(b) == 0
}

// Whether two letters are seen to name neither setup nor a move: capitals, the first of which is not A.
fn idle_pair(a: u8, b: u8) -> bool
    ensures { result ≡ true → Idle (read_identifier (a ∷ b ∷ [])) }
{
    if a == b'A' {
        return false;
    }
    a.is_ascii_uppercase() && b.is_ascii_uppercase()
}

// Whether property p is seen to be neither setup nor a move.
fn idle_row(text: &[u8], properties: &[u32], p: usize) -> bool
    requires { p < length properties.now / property_stride }
    ensures { result ≡ true → Idle (read_identifier (identifier_at text.now properties.now p)) }
{
    let at = lists::wide(properties[p * tables::PROPERTY_STRIDE]);
    let end = lists::wide(properties[p * tables::PROPERTY_STRIDE + tables::PROPERTY_END]);
    if end <= at {
        return false;
    }
    if text.len() < end {
        return false;
    }
    if end - at == 2 {
        return idle_pair(text[at], text[at + 1]);
    }
    if end - at != 1 {
        return false;
    }
    idle_letter(text[at])
}

// Whether the properties from row `first` up to row `to` are seen to be neither setup nor moves.
fn idle_rows(text: &[u8], properties: &[u32], first: usize, to: usize) -> bool
    requires { first < to → to ≤ length properties.now / property_stride }
    ensures { result ≡ true → (p : ℕ) → first ≤ p → p < to → Idle (read_identifier (identifier_at text.now properties.now p)) }
{
    for p in first..to {
        if !idle_row(text, properties, p) {
            return false;
        }
    }
    true
}

// The move of row `first`, the first property of a node, where that is all that the node does and it is seen at once.
pub fn seen_move(
    columns: usize,
    rows: usize,
    text: &[u8],
    properties: &[u32],
    values: &[u32],
    first: usize,
    count: usize,
) -> MoveSeen
    ensures { MoveSeenIs columns rows (properties_at text.now properties.now values.now first count) result }
{
    let all = properties.len() / tables::PROPERTY_STRIDE;
    if all <= first {
        return unseen();
    }
    if all - first < count {
        return unseen();
    }
    if count == 0 {
        return unseen();
    }
    if !idle_rows(text, properties, first + 1, first + count) {
        return unseen();
    }
    seen_row(columns, rows, text, properties, values, first)
}
