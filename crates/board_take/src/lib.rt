// Stones taken off: all groups of a colour that have no liberty, or one group. A flood marks places; specs/LocalsFlood is for private functions alone.
#![tactic(auto)]

ghost use Rattle.std.specs.Prelude.{◌≡◌, true, false, not, ◌&&◌, ℕ, ◌+◌, ◌/◌, ◌%◌, ◌≤◌, ◌<◌, length, get_or};
ghost use Rattle.board_groups.specs.Board.{at, on_board};
ghost use Rattle.board_groups.specs.Groups.{Stone, Liberty, TakesGroup, TakesBeside};
ghost use Rattle.board_take.specs.LocalsSides.{right_of, left_of, down_of, up_of, colour_at, empty_at, held_at, stands_at, Spot, Free, FreeIs, FreeAsked};
ghost use Rattle.board_take.specs.LocalsShort.{ShortGrew, SettledTo, FewGrew, FewIs};
ghost use Rattle.board_take.specs.LocalsFlood.{Marked, Found, Queued, Went, Here, Around, Seed, SeedAt, Unmarked, Coloured, GrowIs, Swept};
ghost use Rattle.board_take.specs.Take.{TakesAll, TakesOne, TakesNear, SettledSeen};

// The place in the next column, or 2704.
fn right(p: usize, columns: usize) -> usize
    requires { p < 2704 }
    ensures { result ≡ right_of columns p }
{
    if (p / 52 + 1 < columns) & (p + 52 < 2704) {
        return p + 52;
    }
    2704
}

// The place in the column before, or 2704.
fn left(p: usize) -> usize
    ensures { result ≡ left_of p }
{
    if 52 <= p {
        return p - 52;
    }
    2704
}

// The place in the next row, or 2704.
fn down(p: usize, rows: usize) -> usize
    requires { p < 2704 }
    ensures { result ≡ down_of rows p }
{
    if (p % 52 + 1 < rows) & (p % 52 + 1 < 52) {
        return p + 1;
    }
    2704
}

// The place in the row before, or 2704.
fn up(p: usize) -> usize
    ensures { result ≡ up_of p }
{
    if 0 < p % 52 {
        return p - 1;
    }
    2704
}

// The place is on the board.
pub fn on_board(p: usize, columns: usize, rows: usize) -> bool
    ensures { result ≡ on_board columns rows p }
{
    ((p / 52 < columns) & (p % 52 < rows)) & (p < 2704)
}

// The place is one, and empty.
#[tactic(auto, unfolding(crate::specs::LocalsSides::colour_at))]
fn empty_at(stones: &[u8; 2704], q: usize) -> bool
    ensures { result ≡ empty_at stones.now q }
{
    q < 2704 && stones[q] == 0
}

// The colour stands at the place in the next column.
#[tactic(auto, unfolding(crate::specs::LocalsSides::right_of, crate::specs::LocalsSides::colour_at))]
fn right_is(stones: &[u8; 2704], p: usize, x: usize, columns: usize, colour: u8) -> bool
    requires { (p < 2704) × (x ≡ p / 52) }
    ensures { result ≡ colour_at stones.now colour (right_of columns p) }
{
    x + 1 < columns && p + 52 < 2704 && stones[p + 52] == colour
}

// The colour stands at the place in the column before.
#[tactic(auto, unfolding(crate::specs::LocalsSides::left_of, crate::specs::LocalsSides::colour_at))]
fn left_is(stones: &[u8; 2704], p: usize, colour: u8) -> bool
    requires { p < 2704 }
    ensures { result ≡ colour_at stones.now colour (left_of p) }
{
    52 <= p && stones[p - 52] == colour
}

// The colour stands at the place in the next row.
#[tactic(auto, unfolding(crate::specs::LocalsSides::down_of, crate::specs::LocalsSides::colour_at))]
fn down_is(stones: &[u8; 2704], p: usize, y: usize, rows: usize, colour: u8) -> bool
    requires { (p < 2704) × (y ≡ p % 52) }
    ensures { result ≡ colour_at stones.now colour (down_of rows p) }
{
    y + 1 < rows && y + 1 < 52 && stones[p + 1] == colour
}

// The colour stands at the place in the row before.
#[tactic(auto, unfolding(crate::specs::LocalsSides::up_of, crate::specs::LocalsSides::colour_at))]
fn up_is(stones: &[u8; 2704], p: usize, y: usize, colour: u8) -> bool
    requires { (p < 2704) × (y ≡ p % 52) }
    ensures { result ≡ colour_at stones.now colour (up_of p) }
{
    0 < y && stones[p - 1] == colour
}

// A point beside p, which is (x, y), is empty.
fn free_at(stones: &[u8; 2704], p: usize, x: usize, y: usize, columns: usize, rows: usize) -> bool
    requires { (on_board columns rows p ≡ true) × Spot x y p }
    ensures { FreeIs columns rows stones.now p result }
{
    if right_is(stones, p, x, columns, 0) {
        return true;
    }
    if left_is(stones, p, 0) {
        return true;
    }
    if down_is(stones, p, y, rows, 0) {
        return true;
    }
    up_is(stones, p, y, 0)
}

// A point beside p is empty.
fn free(stones: &[u8; 2704], p: usize, columns: usize, rows: usize) -> bool
    requires { on_board columns rows p ≡ true }
    ensures { FreeIs columns rows stones.now p result }
{
    free_at(stones, p, p / 52, p % 52, columns, rows)
}

// Puts a place on the queue where a stone of the colour stands there and it is not marked.
fn push(
    stones: &[u8; 2704],
    marks: &mut [bool; 2704],
    queue: &mut [u16; 2704],
    n: usize,
    q: usize,
    colour: u8,
) -> usize
    requires { Queued marks.old queue.old n }
    ensures { Went (Here stones.now colour q) marks.old queue.old n marks.new queue.new result }
{
    if 2704 <= q {
        return n;
    }
    if stones[q] != colour {
        return n;
    }
    if marks[q] {
        return n;
    }
    marks[q] = true;
    queue[n] = q as u16;
    n + 1
}

// Puts the stones of the colour beside p on the queue.
fn visit(
    stones: &[u8; 2704],
    marks: &mut [bool; 2704],
    queue: &mut [u16; 2704],
    n: usize,
    p: usize,
    columns: usize,
    rows: usize,
    colour: u8,
) -> usize
    requires { Queued marks.old queue.old n × (on_board columns rows p ≡ true) }
    ensures { Went (Around columns rows stones.now colour p)
        marks.old queue.old n marks.new queue.new result }
{
    let a = push(stones, marks, queue, n, right(p, columns), colour);
    let b = push(stones, marks, queue, a, left(p), colour);
    let c = push(stones, marks, queue, b, down(p, rows), colour);
    push(stones, marks, queue, c, up(p), colour)
}

// A point beside p is empty, where that is asked.
fn stops(stones: &[u8; 2704], p: usize, columns: usize, rows: usize, stop: bool) -> bool
    requires { on_board columns rows p ≡ true }
    ensures { FreeAsked columns rows stones.now p stop result }
{
    if stop {
        return free(stones, p, columns, rows);
    }
    false
}

// Marks all stones of the colour joined with those of the queue, and gives their number; 2705 where it stopped at one beside an empty point.
fn grow(
    stones: &[u8; 2704],
    marks: &mut [bool; 2704],
    queue: &mut [u16; 2704],
    from: usize,
    columns: usize,
    rows: usize,
    colour: u8,
    stop: bool,
) -> usize
    requires { Queued marks.old queue.old from × ((p : ℕ) → Marked marks.old p → Stone columns rows stones.now colour p) }
    ensures { GrowIs columns rows stones.now colour stop marks.old marks.new queue.new result }
{
    let mut n = from;
    let mut i: usize = 0;
    // A while: the queue grows under it.
    while i < n {
        let p = queue[i] as usize;
        if stops(stones, p, columns, rows, stop) {
            return 2705;
        }
        i += 1;
        n = visit(stones, marks, queue, n, p, columns, rows, colour);
    }
    n
}

// Puts the place p on the queue where it is a stone of the colour beside an empty point.
fn push_free(
    stones: &[u8; 2704],
    marks: &mut [bool; 2704],
    queue: &mut [u16; 2704],
    n: usize,
    p: usize,
    columns: usize,
    rows: usize,
    colour: u8,
) -> usize
    requires { Queued marks.old queue.old n }
    ensures { Went (SeedAt columns rows stones.now colour p)
        marks.old queue.old n marks.new queue.new result }
{
    if !stands(stones, p, columns, rows, colour) {
        return n;
    }
    if !free(stones, p, columns, rows) {
        return n;
    }
    push(stones, marks, queue, n, p, colour)
}

// Puts all stones of the colour beside an empty point on the queue.
fn seed(
    stones: &[u8; 2704],
    marks: &mut [bool; 2704],
    queue: &mut [u16; 2704],
    columns: usize,
    rows: usize,
    colour: u8,
) -> usize
    requires { Queued marks.old queue.old 0 }
    ensures { Went (Seed columns rows stones.now colour 2704)
        marks.old queue.old 0 marks.new queue.new result }
{
    let mut n: usize = 0;
    for p in 0..2704 {
        n = push_free(stones, marks, queue, n, p, columns, rows, colour);
    }
    n
}

// A stone of the colour stands at p.
#[tactic(auto, unfolding(crate::specs::LocalsSides::stands_at))]
fn stands(stones: &[u8; 2704], p: usize, columns: usize, rows: usize, colour: u8) -> bool
    ensures { result ≡ stands_at columns rows stones.now colour p }
{
    on_board(p, columns, rows) && stones[p] == colour
}

// A stone of the colour stands at p and is not marked.
fn goes(
    stones: &[u8; 2704],
    marks: &[bool; 2704],
    p: usize,
    columns: usize,
    rows: usize,
    colour: u8,
) -> bool
    requires { p < 2704 }
    ensures { result ≡ stands_at columns rows stones.now colour p && not (get_or marks.now p false) }
{
    stands(stones, p, columns, rows, colour) & !marks[p]
}

// Takes off the stones of the colour that are not marked, and gives their number.
fn sweep(
    stones: &mut [u8; 2704],
    marks: &[bool; 2704],
    columns: usize,
    rows: usize,
    colour: u8,
) -> usize
    requires { colour ≡ 0 → ⊥ }
    ensures { Swept (Unmarked columns rows stones.old colour marks.now) colour stones.old stones.new result }
{
    let mut n: usize = 0;
    for p in 0..2704 {
        if goes(stones, marks, p, columns, rows, colour) {
            stones[p] = 0;
            n += 1;
        }
    }
    n
}

// Takes off the stones of the colour at the places of a queue, and gives their number.
fn clear(stones: &mut [u8; 2704], queue: &[u16], colour: u8) -> usize
    requires { (colour ≡ 0 → ⊥) × (length queue.now ≤ 2704) × Coloured stones.old queue.now (length queue.now) colour }
    ensures { Swept (Found queue.now (length queue.now)) colour stones.old stones.new result × (result ≤ 2704) }
{
    let mut taken: usize = 0;
    for &place in queue {
        let p = place as usize;
        if stones[p] == colour {
            stones[p] = 0;
            taken += 1;
        }
    }
    taken
}

// Puts a place on a short queue where a stone of the colour stands there, its mark is free and there is room; two places may share a mark.
// Apart from push: shared marks and no room for all, so it promises less.
fn push_short(
    stones: &[u8; 2704],
    marks: &mut [bool; 64],
    queue: &mut [u16; 32],
    n: usize,
    q: usize,
    colour: u8,
) -> usize
    requires { (length queue.old ≡ 32) × (n ≤ 32) }
    ensures { ShortGrew (Here stones.now colour q) queue.old n queue.new result }
{
    if 2704 <= q {
        return n;
    }
    if stones[q] != colour {
        return n;
    }
    let mark = q % 64;
    if marks[mark] {
        return n;
    }
    if 32 <= n {
        return n;
    }
    marks[mark] = true;
    queue[n] = q as u16;
    n + 1
}

// Puts the stones of the colour beside p on a short queue, as long as there is room.
// Apart from visit: each queue has its own relation to what was on it before.
fn visit_short(
    stones: &[u8; 2704],
    marks: &mut [bool; 64],
    queue: &mut [u16; 32],
    n: usize,
    p: usize,
    columns: usize,
    rows: usize,
    colour: u8,
) -> usize
    requires { (length queue.old ≡ 32) × (n ≤ 32) × (on_board columns rows p ≡ true) }
    ensures { ShortGrew (Around columns rows stones.now colour p) queue.old n queue.new result }
{
    let a = push_short(stones, marks, queue, n, right(p, columns), colour);
    let b = push_short(stones, marks, queue, a, left(p), colour);
    let c = push_short(stones, marks, queue, b, down(p, rows), colour);
    push_short(stones, marks, queue, c, up(p), colour)
}

// Whether a short search finds a liberty of the group of p.
fn lives(stones: &[u8; 2704], p: usize, columns: usize, rows: usize, colour: u8) -> bool
    requires { Stone columns rows stones.now colour p }
    ensures { result ≡ true → Liberty columns rows stones.now colour p }
{
    let mut marks = [false; 64];
    let mut queue = [0u16; 32];
    let mut n = push_short(stones, &mut marks, &mut queue, 0, p, colour);
    let mut i: usize = 0;
    // A while: the queue grows under it.
    while i < n {
        let q = queue[i] as usize;
        if free(stones, q, columns, rows) {
            return true;
        }
        i += 1;
        n = visit_short(stones, &mut marks, &mut queue, n, q, columns, rows, colour);
    }
    false
}

// Puts a place on a short queue where a stone of the colour stands there and it is not on it, as long as there is room.
// Apart from push_short: no marks, and it promises that nothing is left out where there is room.
fn push_few(stones: &[u8; 2704], queue: &mut [u16; 32], n: usize, q: usize, colour: u8) -> usize
    requires { (length queue.old ≡ 32) × (n ≤ 32) }
    ensures { FewGrew (Here stones.now colour q) queue.old n queue.new result }
{
    if 2704 <= q {
        return n;
    }
    if stones[q] != colour {
        return n;
    }
    let place = q as u16;
    if queue[..n].contains(&place) {
        return n;
    }
    if 32 <= n {
        return n;
    }
    queue[n] = place;
    n + 1
}

// Puts the stones of the colour beside p on a short queue, as long as there is room.
// Apart from visit_short: as push_few is from push_short.
fn visit_few(
    stones: &[u8; 2704],
    queue: &mut [u16; 32],
    n: usize,
    p: usize,
    columns: usize,
    rows: usize,
    colour: u8,
) -> usize
    requires { (length queue.old ≡ 32) × (n ≤ 32) × (on_board columns rows p ≡ true) }
    ensures { FewGrew (Around columns rows stones.now colour p) queue.old n queue.new result }
{
    let a = push_few(stones, queue, n, right(p, columns), colour);
    let b = push_few(stones, queue, a, left(p), colour);
    let c = push_few(stones, queue, b, down(p, rows), colour);
    push_few(stones, queue, c, up(p), colour)
}

// Lists the group of p on a short queue, and gives the number of its stones: 0 where it is seen to have a liberty, 32 where it is too large to say.
fn few(
    stones: &[u8; 2704],
    queue: &mut [u16; 32],
    p: usize,
    columns: usize,
    rows: usize,
    colour: u8,
) -> usize
    requires { Stone columns rows stones.now colour p × (length queue.old ≡ 32) }
    ensures { FewIs columns rows stones.now colour p queue.new result }
{
    let mut n = push_few(stones, queue, 0, p, colour);
    let mut i: usize = 0;
    // A while: the queue grows under it.
    while i < n {
        if 12 < n {
            return 32;
        }
        let q = queue[i] as usize;
        if free(stones, q, columns, rows) {
            return 0;
        }
        i += 1;
        n = visit_few(stones, queue, n, q, columns, rows, colour);
    }
    n
}

// Takes off all stones of the colour whose groups have no liberty, and gives their number.
pub fn take_all(stones: &mut [u8; 2704], columns: usize, rows: usize, colour: u8) -> usize
    ensures { TakesAll columns rows colour stones.old stones.new result }
{
    if colour == 0 {
        return 0;
    }
    let mut marks = [false; 2704];
    let mut queue = [0u16; 2704];
    let n = seed(stones, &mut marks, &mut queue, columns, rows, colour);
    let r = grow(
        stones, &mut marks, &mut queue, n, columns, rows, colour, false,
    );
    sweep(stones, &marks, columns, rows, colour)
}

// Whether a stone of the colour stands at q, a point of the board or none, and a point beside it is empty.
fn free_via(stones: &[u8; 2704], q: usize, columns: usize, rows: usize, colour: u8) -> bool
    requires { q < 2704 → on_board columns rows q ≡ true }
    ensures { result ≡ true → Stone columns rows stones.now colour q × Free columns rows stones.now q }
{
    if 2704 <= q {
        return false;
    }
    if stones[q] != colour {
        return false;
    }
    free(stones, q, columns, rows)
}

// Whether a stone beside p of its colour has an empty point beside it.
fn lives_near(stones: &[u8; 2704], p: usize, columns: usize, rows: usize, colour: u8) -> bool
    requires { Stone columns rows stones.now colour p }
    ensures { result ≡ true → Liberty columns rows stones.now colour p }
{
    if free_via(stones, right(p, columns), columns, rows, colour) {
        return true;
    }
    if free_via(stones, left(p), columns, rows, colour) {
        return true;
    }
    if free_via(stones, down(p, rows), columns, rows, colour) {
        return true;
    }
    free_via(stones, up(p), columns, rows, colour)
}

// Takes off the group of the stone at p by the long search, where it has no liberty, and gives the number of its stones, else 0.
fn take_long(stones: &mut [u8; 2704], columns: usize, rows: usize, p: usize, colour: u8) -> usize
    requires { (colour ≡ 0 → ⊥) × Stone columns rows stones.old colour p }
    ensures { TakesGroup columns rows colour p stones.old stones.new result × (result ≤ 2704) }
{
    if lives(stones, p, columns, rows, colour) {
        return 0;
    }
    let mut marks = [false; 2704];
    let mut queue = [0u16; 2704];
    let n = push(stones, &mut marks, &mut queue, 0, p, colour);
    let r = grow(
        stones, &mut marks, &mut queue, n, columns, rows, colour, true,
    );
    if 2704 < r {
        return 0;
    }
    clear(stones, &queue[..r], colour)
}

// The same, by a short search where that can say it.
fn take_short(stones: &mut [u8; 2704], columns: usize, rows: usize, p: usize, colour: u8) -> usize
    requires { (colour ≡ 0 → ⊥) × Stone columns rows stones.old colour p }
    ensures { TakesGroup columns rows colour p stones.old stones.new result × (result ≤ 2704) }
{
    if lives_near(stones, p, columns, rows, colour) {
        return 0;
    }
    let mut queue = [0u16; 32];
    let n = few(stones, &mut queue, p, columns, rows, colour);
    if n == 0 {
        return 0;
    }
    if 32 <= n {
        return take_long(stones, columns, rows, p, colour);
    }
    clear(stones, &queue[..n], colour)
}

// The same of a place that is a point of the board or none, where a stone of the colour stands there.
fn take_side(stones: &mut [u8; 2704], columns: usize, rows: usize, q: usize, colour: u8) -> usize
    requires { (colour ≡ 0 → ⊥) × (q < 2704 → on_board columns rows q ≡ true) }
    ensures { TakesGroup columns rows colour q stones.old stones.new result × (result ≤ 2704) }
{
    if 2704 <= q {
        return 0;
    }
    if stones[q] != colour {
        return 0;
    }
    if free(stones, q, columns, rows) {
        return 0;
    }
    take_short(stones, columns, rows, q, colour)
}

// Takes off the group of p where it is of the colour and has no liberty, and gives the number of its stones, else 0.
pub fn take_group(
    stones: &mut [u8; 2704],
    columns: usize,
    rows: usize,
    p: usize,
    colour: u8,
) -> usize
    ensures { TakesOne columns rows colour p stones.old stones.new result × (result ≤ 2704) }
{
    if colour == 0 {
        return 0;
    }
    if !stands(stones, p, columns, rows, colour) {
        return 0;
    }
    if free(stones, p, columns, rows) {
        return 0;
    }
    take_short(stones, columns, rows, p, colour)
}

// Takes off the groups of the colour beside p that have no liberty, and gives the number of their stones.
pub fn take_beside(
    stones: &mut [u8; 2704],
    columns: usize,
    rows: usize,
    p: usize,
    colour: u8,
) -> usize
    ensures { TakesNear columns rows colour p stones.old stones.new result }
{
    if colour == 0 {
        return 0;
    }
    if !on_board(p, columns, rows) {
        return 0;
    }
    let a = take_side(stones, columns, rows, right(p, columns), colour);
    let b = take_side(stones, columns, rows, left(p), colour);
    let c = take_side(stones, columns, rows, down(p, rows), colour);
    let d = take_side(stones, columns, rows, up(p), colour);
    a + b + c + d
}

// Takes off the group of the stone at p, which is (x, y), where it has no liberty, and gives the number of its stones, else 0.
fn take_stone(
    stones: &mut [u8; 2704],
    columns: usize,
    rows: usize,
    p: usize,
    x: usize,
    y: usize,
    colour: u8,
) -> usize
    requires { (colour ≡ 0 → ⊥) × Stone columns rows stones.old colour p × Spot x y p }
    ensures { TakesGroup columns rows colour p stones.old stones.new result × (result ≤ 2704) }
{
    if free_at(stones, p, x, y, columns, rows) {
        return 0;
    }
    take_short(stones, columns, rows, p, colour)
}

// The same of the place in the next column, where a stone of the colour stands there.
fn take_right(
    stones: &mut [u8; 2704],
    columns: usize,
    rows: usize,
    p: usize,
    x: usize,
    y: usize,
    colour: u8,
) -> usize
    requires { (colour ≡ 0 → ⊥) × (on_board columns rows p ≡ true) × Spot x y p }
    ensures { TakesGroup columns rows colour (right_of columns p) stones.old stones.new result × (result ≤ 2704) }
{
    if right_is(stones, p, x, columns, colour) {
        return take_stone(stones, columns, rows, p + 52, x + 1, y, colour);
    }
    0
}

// The same of the place in the column before.
fn take_left(
    stones: &mut [u8; 2704],
    columns: usize,
    rows: usize,
    p: usize,
    x: usize,
    y: usize,
    colour: u8,
) -> usize
    requires { (colour ≡ 0 → ⊥) × (on_board columns rows p ≡ true) × Spot x y p }
    ensures { TakesGroup columns rows colour (left_of p) stones.old stones.new result × (result ≤ 2704) }
{
    if left_is(stones, p, colour) {
        return take_stone(stones, columns, rows, p - 52, x - 1, y, colour);
    }
    0
}

// The same of the place in the next row.
fn take_down(
    stones: &mut [u8; 2704],
    columns: usize,
    rows: usize,
    p: usize,
    x: usize,
    y: usize,
    colour: u8,
) -> usize
    requires { (colour ≡ 0 → ⊥) × (on_board columns rows p ≡ true) × Spot x y p }
    ensures { TakesGroup columns rows colour (down_of rows p) stones.old stones.new result × (result ≤ 2704) }
{
    if down_is(stones, p, y, rows, colour) {
        return take_stone(stones, columns, rows, p + 1, x, y + 1, colour);
    }
    0
}

// The same of the place in the row before.
fn take_up(
    stones: &mut [u8; 2704],
    columns: usize,
    rows: usize,
    p: usize,
    x: usize,
    y: usize,
    colour: u8,
) -> usize
    requires { (colour ≡ 0 → ⊥) × (on_board columns rows p ≡ true) × Spot x y p }
    ensures { TakesGroup columns rows colour (up_of p) stones.old stones.new result × (result ≤ 2704) }
{
    if up_is(stones, p, y, colour) {
        return take_stone(stones, columns, rows, p - 1, x, y - 1, colour);
    }
    0
}

// Takes off the group of a point of the board, (x, y), where it is of the colour and has no liberty, and gives the number of its stones, else 0.
pub fn take_point(
    stones: &mut [u8; 2704],
    columns: usize,
    rows: usize,
    p: usize,
    x: usize,
    y: usize,
    colour: u8,
) -> usize
    requires { (colour ≡ 0 → ⊥) × (on_board columns rows p ≡ true) × Spot x y p }
    ensures { TakesGroup columns rows colour p stones.old stones.new result }
{
    if stones[p] != colour {
        return 0;
    }
    take_stone(stones, columns, rows, p, x, y, colour)
}

// Takes off the groups of the colour beside a point of the board, (x, y), that have no liberty, and gives the number of their stones.
pub fn take_sides(
    stones: &mut [u8; 2704],
    columns: usize,
    rows: usize,
    p: usize,
    x: usize,
    y: usize,
    colour: u8,
) -> usize
    requires { (colour ≡ 0 → ⊥) × (on_board columns rows p ≡ true) × Spot x y p }
    ensures { TakesBeside columns rows colour p stones.old stones.new result }
{
    let after = take_right(stones, columns, rows, p, x, y, colour);
    let before = take_left(stones, columns, rows, p, x, y, colour);
    let below = take_down(stones, columns, rows, p, x, y, colour);
    let above = take_up(stones, columns, rows, p, x, y, colour);
    after + before + below + above
}

// The place is one, and empty or of the colour.
#[tactic(auto, unfolding(crate::specs::LocalsSides::held_at))]
fn held_at(stones: &[u8; 2704], q: usize, colour: u8) -> bool
    ensures { result ≡ held_at stones.now colour q }
{
    q < 2704 && (stones[q] == 0 || stones[q] == colour)
}

// Whether p is empty, or beside an empty point, or beside a stone of its colour before it, where every stone before it has a liberty.
fn seen_at(stones: &[u8; 2704], p: usize, columns: usize, rows: usize) -> bool
    requires { (on_board columns rows p ≡ true) × SettledTo columns rows stones.now p }
    ensures { result ≡ true → SettledTo columns rows stones.now (p + 1) }
{
    let colour = stones[p];
    if colour == 0 {
        return true;
    }
    if held_at(stones, up(p), colour) {
        return true;
    }
    if held_at(stones, left(p), colour) {
        return true;
    }
    if empty_at(stones, down(p, rows)) {
        return true;
    }
    empty_at(stones, right(p, columns))
}

// Whether every stone is seen to have a liberty, in one pass and at most 32 short searches; false says nothing.
pub fn settled(stones: &[u8; 2704], columns: usize, rows: usize) -> bool
    ensures { SettledSeen columns rows stones.now result }
{
    let mut left: usize = 32;
    for x in 0..columns.min(52) {
        for y in 0..rows.min(52) {
            let p = 52 * x + y;
            if seen_at(stones, p, columns, rows) {
                continue;
            }
            if left == 0 {
                return false;
            }
            left -= 1;
            if !lives(stones, p, columns, rows, stones[p]) {
                return false;
            }
        }
    }
    true
}
