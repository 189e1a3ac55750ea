// Acts upon a board with the sums of stones put on and taken off: a point set, a stone played.
#![tactic(auto)]

ghost use Rattle.std.specs.Prelude.{◌≡◌, true, false, ◌&&◌, eqb};
ghost use Rattle.lists.specs.Pick.{pick};
ghost use Rattle.board_play.specs.Play.{Player, settable, playable};
ghost use Rattle.board_play.specs.Steps.{sets, plays, one_if};
ghost use Rattle.board_acts.specs.Acts.{set_sums, take_sums, set_counts, take_counts, BoardActIs};

// Of one colour, how many stones were put on and taken off; also as a C caller sees them.
#[repr(C)]
#[derive(Clone, Copy)]
pub struct Sums {
    pub on: u64,
    pub off: u64,
}

// The sums of both colours; whether every stone on the board is known to have a liberty.
#[derive(Clone, Copy)]
pub struct BoardState {
    pub black: Sums,
    pub white: Sums,
    pub settled: bool,
}

// 1 where what is set differs from what stood there and `what` is the colour x, else 0.
fn counts_for(stood: u8, colour: u8, what: u8, x: u8) -> u64
    ensures { result ≡ pick (eqb stood colour) 0 (one_if what x) }
{
    if stood == colour {
        return 0;
    }
    if what == x {
        return 1;
    }
    0
}

// The first where the colours are equal, else the second.
fn lost_or_taken(x: u8, colour: u8, lost: usize, taken: usize) -> u64
    ensures { result ≡ pick (eqb x colour) lost taken }
{
    if x == colour {
        return lost as u64;
    }
    taken as u64
}

// The sums of colour x after a point was set.
fn sums_set(sums: Sums, x: u8, colour: u8, stood: u8) -> Sums
    ensures { result ≡ set_sums x colour stood sums }
{
    let on = sums.on.saturating_add(counts_for(stood, colour, colour, x));
    let off = sums.off.saturating_add(counts_for(stood, colour, stood, x));
    Sums { on: on, off: off }
}

// The sums of colour x after stones were taken by a move.
fn sums_taken(sums: Sums, x: u8, colour: u8, taken: usize, lost: usize) -> Sums
    ensures { result ≡ take_sums x colour taken lost sums }
{
    let more = lost_or_taken(x, colour, lost, taken);
    let off = sums.off.saturating_add(more);
    Sums {
        on: sums.on,
        off: off,
    }
}

// The sums of both colours after a point was set.
fn count_set(state: BoardState, colour: u8, stood: u8) -> BoardState
    ensures { result ≡ set_counts colour stood state }
{
    let black = sums_set(state.black, 1, colour, stood);
    let white = sums_set(state.white, 2, colour, stood);
    BoardState {
        black: black,
        white: white,
        settled: false,
    }
}

// The sums of both colours after stones were taken by a move.
fn count_taken(state: BoardState, colour: u8, taken: usize, lost: usize) -> BoardState
    ensures { result ≡ take_counts colour taken lost state }
{
    let black = sums_taken(state.black, 1, colour, taken, lost);
    let white = sums_taken(state.white, 2, colour, taken, lost);
    BoardState {
        black: black,
        white: white,
        settled: true,
    }
}

// Whether that can be set at the place.
#[tactic(auto, unfolding(board_play::specs::Play::settable))]
fn can_set(columns: usize, rows: usize, p: usize, colour: u8) -> bool
    ensures { result ≡ settable columns rows colour p }
{
    colour < 3 && board_take::on_board(p, columns, rows)
}

// Sets a point to empty, black or white; nothing changes where that cannot be set.
pub fn set_act(
    stones: &mut [u8; 2704],
    state: BoardState,
    columns: usize,
    rows: usize,
    p: usize,
    colour: u8,
) -> BoardState
    ensures { BoardActIs (settable columns rows colour p) columns rows (sets colour p) stones.old state stones.new result }
{
    if !can_set(columns, rows, p, colour) {
        return state;
    }
    let stood = board_play::set_stone(stones, p, colour);
    count_set(state, colour, stood)
}

// Plays a stone, by the whole board or, where that is known to be settled, near the move; nothing changes where it cannot be played.
pub fn play_act(
    stones: &mut [u8; 2704],
    state: BoardState,
    columns: usize,
    rows: usize,
    p: usize,
    colour: u8,
) -> BoardState
    ensures { BoardActIs (playable columns rows colour p) columns rows (plays colour p) stones.old state stones.new result }
{
    if !board_play::can_play(columns, rows, p, colour) {
        return state;
    }
    let settled = state.settled;
    if settled {
        let near = board_play::play_near(stones, columns, rows, p, colour);
        let then = count_set(state, colour, near.stood);
        return count_taken(then, colour, near.taken, near.lost);
    }
    let whole = board_play::play_stone(stones, columns, rows, p, colour);
    let then = count_set(state, colour, whole.stood);
    count_taken(then, colour, whole.taken, whole.lost)
}

// Whether a stone was put on an empty point without taking any.
fn quiet(stood: u8, taken: usize, lost: usize) -> bool
    ensures { result ≡ true → (stood ≡ 0) × (taken ≡ 0) × (lost ≡ 0) }
{
    stood == 0 && taken == 0 && lost == 0
}

// The sums after a stone was played; where it was put on an empty point without taking any, at once.
fn count_played(state: BoardState, colour: u8, stood: u8, taken: usize, lost: usize) -> BoardState
    requires { Player colour }
    ensures { result ≡ take_counts colour taken lost (set_counts colour stood state) }
{
    if quiet(stood, taken, lost) {
        if colour == 1 {
            let black = count_set(state, 1, 0);
            return count_taken(black, 1, 0, 0);
        }
        let white = count_set(state, 2, 0);
        return count_taken(white, 2, 0, 0);
    }
    let then = count_set(state, colour, stood);
    count_taken(then, colour, taken, lost)
}

// Plays a stone near the move; nothing changes where it cannot be played, or where the board is not known to be settled.
pub fn play_settled(
    stones: &mut [u8; 2704],
    state: BoardState,
    columns: usize,
    rows: usize,
    p: usize,
    colour: u8,
) -> BoardState
    ensures { BoardActIs (playable columns rows colour p && state.settled) columns rows (plays colour p)
        stones.old state stones.new result }
{
    if !board_play::can_play(columns, rows, p, colour) {
        return state;
    }
    let settled = state.settled;
    if !settled {
        return state;
    }
    let met = board_play::play_point(stones, columns, rows, p, colour);
    count_played(state, colour, met.stood, met.taken, met.lost)
}
