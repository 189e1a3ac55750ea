// A stone set, and a stone played: whatever stood there, then the stones of the other colour that have no liberty go, then those of its own.
#![tactic(auto)]

ghost use Rattle.std.specs.Prelude.{◌≡◌, true};
ghost use Rattle.board_groups.specs.Board.{at};
ghost use Rattle.board_play.specs.Play.{SetIs, playable, Plays, PlaysNear, PlayIs};

// What stood at the point, how many stones of the other colour went, and how many of the mover's.
#[derive(Clone, Copy)]
pub struct StonePlayed {
    pub stood: u8,
    pub taken: usize,
    pub lost: usize,
}

// Sets what stands at a place, and gives what stood there.
pub fn set_stone(stones: &mut [u8; 2704], p: usize, colour: u8) -> u8
    ensures { SetIs colour p stones.old stones.new result }
{
    if 2704 <= p {
        return 0;
    }
    let stood = stones[p];
    stones[p] = colour;
    stood
}

// A stone can be played at the place.
#[tactic(auto, unfolding(crate::specs::Play::playable))]
pub fn can_play(columns: usize, rows: usize, p: usize, colour: u8) -> bool
    ensures { result ≡ playable columns rows colour p }
{
    (colour == 1 || colour == 2) && board_take::on_board(p, columns, rows)
}

// Plays a stone, and looks for captures on the whole board; near the move where every stone is seen to have a liberty, since that is all then.
pub fn play_stone(
    stones: &mut [u8; 2704],
    columns: usize,
    rows: usize,
    p: usize,
    colour: u8,
) -> StonePlayed
    ensures { PlayIs (Plays columns rows colour p stones.old stones.new result.taken result.lost) columns rows colour p
        stones.old stones.new result.stood result.taken result.lost }
{
    if board_take::settled(stones, columns, rows) {
        return play_near(stones, columns, rows, p, colour);
    }
    if !can_play(columns, rows, p, colour) {
        return StonePlayed {
            stood: 0,
            taken: 0,
            lost: 0,
        };
    }
    let other = 3 - colour;
    let stood = set_stone(stones, p, colour);
    let taken = board_take::take_all(stones, columns, rows, other);
    let lost = board_take::take_all(stones, columns, rows, colour);
    StonePlayed {
        stood: stood,
        taken: taken,
        lost: lost,
    }
}

// Plays a stone, and looks for captures beside it and in its own group: on a settled board that is all (proofs/Acts).
pub fn play_near(
    stones: &mut [u8; 2704],
    columns: usize,
    rows: usize,
    p: usize,
    colour: u8,
) -> StonePlayed
    ensures { PlayIs (PlaysNear columns rows colour p stones.old stones.new result.taken result.lost) columns rows colour p
        stones.old stones.new result.stood result.taken result.lost }
{
    if !can_play(columns, rows, p, colour) {
        return StonePlayed {
            stood: 0,
            taken: 0,
            lost: 0,
        };
    }
    let other = 3 - colour;
    let stood = set_stone(stones, p, colour);
    let taken = board_take::take_beside(stones, columns, rows, p, other);
    let lost = board_take::take_group(stones, columns, rows, p, colour);
    StonePlayed {
        stood: stood,
        taken: taken,
        lost: lost,
    }
}

// The same of a stone that can be played, without asking whether it can.
pub fn play_point(
    stones: &mut [u8; 2704],
    columns: usize,
    rows: usize,
    p: usize,
    colour: u8,
) -> StonePlayed
    requires { playable columns rows colour p ≡ true }
    ensures { (result.stood ≡ at stones.old p)
        × PlaysNear columns rows colour p stones.old stones.new result.taken result.lost }
{
    let x = p / 52;
    let y = p % 52;
    let stood = set_stone(stones, p, colour);
    let taken = board_take::take_sides(stones, columns, rows, p, x, y, 3 - colour);
    let lost = board_take::take_point(stones, columns, rows, p, x, y, colour);
    StonePlayed {
        stood: stood,
        taken: taken,
        lost: lost,
    }
}
