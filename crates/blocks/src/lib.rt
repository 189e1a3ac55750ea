// Tokens from blocks: what is known between two blocks, a block, and the close.
#![tactic(auto)]

ghost use Rattle.std.specs.Prelude.{◌≡◌, [], ◌∷◌, ℕ, suc, ◌+◌, ◌*◌, ◌/◌, ◌<◌, ◌≤◌, true, ltb, length, get_or};
ghost use Rattle.lists.specs.Pick.{pick};
ghost use Rattle.lists.specs.Put.{PutWhole};
ghost use Rattle.tables.specs.Numbers.{text_limit};
ghost use Rattle.blocks.specs.State.{left_number, utf8_number, utf8_from, utf8_code, phase_number, phase_from, utf8_by, phase_by, state_says, state_of};
ghost use Rattle.blocks.specs.Room.{filled_with, token_row, rows_at, counted_on, add_row, add_rows, room, goes, takes_byte};
ghost use Rattle.blocks.specs.Close.{closing, cleared_rows, shut_of, refused_at, accepted_with, CloseIs};
ghost use Rattle.blocks.specs.Block.{BlockIs};
ghost use Rattle.blocks.specs.LocalsSteady.{PlainByte, PlainRun, ValueRun, PointByte, PairAt, PairIs, WhiteStays, steady_at, Steady, ran_to, RanIs, WentIs};
ghost use Rattle.blocks_step.specs.Lean.{moves};

use blocks_step::{Char, Left, Phase, Tokens, Utf8};

// What is known between two blocks, as numbers; all zero is the start.
#[repr(C)]
#[derive(Clone, Copy, Default)]
pub struct BlocksState {
    pub total: u32,
    pub utf: u32,
    pub utf_from: u32,
    pub code: u32,
    pub last: u32,
    pub now: u32,
    pub now_from: u32,
    pub count: u32,
    pub kept: u32,
    pub kept_from: u32,
    pub held: u32,
    pub closed: u32,
}

// The same: the bytes so far and UTF-8; the end of the last character that is no white space, or 0;
// the token rules and the rows after all of them, and after that character.
#[derive(Clone, Copy)]
pub struct BlocksKnown {
    pub total: u32,
    pub utf8: Utf8,
    pub last: u32,
    pub now: Phase,
    pub count: u32,
    pub kept: Phase,
    pub held: u32,
}

// The longest text, in bytes.
const LIMIT: u32 = 1048576;

// ---- numbers

// What is to come of a character, as a number.
fn left_number(left: Left) -> u32
    ensures { result ≡ left_number left }
{
    match left {
        Left::One => 1,
        Left::TwoFromA0 => 2,
        Left::TwoTo9f => 3,
        Left::Two => 4,
        Left::ThreeFrom90 => 5,
        Left::Three => 6,
        Left::ThreeTo8f => 7,
    }
}

// Where UTF-8 stands, as a number.
fn utf8_number(u: Utf8) -> u32
    ensures { result ≡ utf8_number u }
{
    match u {
        Utf8::Whole => 0,
        Utf8::Within(left, _, _) => left_number(left),
        Utf8::Bad(_) => 8,
    }
}

// The start of the character, or of what is bad.
fn utf8_from(u: Utf8) -> u32
    ensures { result ≡ utf8_from u }
{
    match u {
        Utf8::Whole => 0,
        Utf8::Within(_, from, _) | Utf8::Bad(from) => from,
    }
}

// The bits so far of the character.
fn utf8_code(u: Utf8) -> u32
    ensures { result ≡ utf8_code u }
{
    match u {
        Utf8::Whole | Utf8::Bad(_) => 0,
        Utf8::Within(_, _, code) => code,
    }
}

// Where the token rules stand, as a number.
fn phase_number(p: Phase) -> u32
    ensures { result ≡ phase_number p }
{
    match p {
        Phase::Between => 0,
        Phase::Ident(_) => 1,
        Phase::Value(_) => 2,
        Phase::Escaped(_) => 3,
        Phase::After(_) => 4,
        Phase::Foreign(_) => 5,
    }
}

// The start of the property.
fn phase_from(p: Phase) -> u32
    ensures { result ≡ phase_from p }
{
    match p {
        Phase::Between => 0,
        Phase::Ident(from)
        | Phase::Value(from)
        | Phase::Escaped(from)
        | Phase::After(from)
        | Phase::Foreign(from) => from,
    }
}

// What a number says of UTF-8; any other number: bad.
#[tactic(auto, unfolding(crate::specs::State::utf8_by))]
fn utf8_by(n: u32, from: u32, code: u32) -> Utf8
    ensures { result ≡ utf8_by n from code }
{
    let left = match n {
        0 => return Utf8::Whole,
        1 => Left::One,
        2 => Left::TwoFromA0,
        3 => Left::TwoTo9f,
        4 => Left::Two,
        5 => Left::ThreeFrom90,
        6 => Left::Three,
        7 => Left::ThreeTo8f,
        _ => return Utf8::Bad(from),
    };
    Utf8::Within(left, from, code)
}

// What a number says of the token rules; any other number: a byte that is not ASCII in an identifier.
#[tactic(auto, unfolding(crate::specs::State::phase_by))]
fn phase_by(n: u32, from: u32) -> Phase
    ensures { result ≡ phase_by n from }
{
    match n {
        0 => Phase::Between,
        1 => Phase::Ident(from),
        2 => Phase::Value(from),
        3 => Phase::Escaped(from),
        4 => Phase::After(from),
        _ => Phase::Foreign(from),
    }
}

// What the numbers of a state say.
fn known_of(s: BlocksState) -> BlocksKnown
    ensures { result ≡ state_says s }
{
    BlocksKnown {
        total: s.total,
        utf8: utf8_by(s.utf, s.utf_from, s.code),
        last: s.last,
        now: phase_by(s.now, s.now_from),
        count: s.count,
        kept: phase_by(s.kept, s.kept_from),
        held: s.held,
    }
}

// The numbers of what is known; not closed.
fn state_of(k: BlocksKnown) -> BlocksState
    ensures { result ≡ state_of k }
{
    BlocksState {
        total: k.total,
        utf: utf8_number(k.utf8),
        utf_from: utf8_from(k.utf8),
        code: utf8_code(k.utf8),
        last: k.last,
        now: phase_number(k.now),
        now_from: phase_from(k.now),
        count: k.count,
        kept: phase_number(k.kept),
        kept_from: phase_from(k.kept),
        held: k.held,
        closed: 0,
    }
}

// ---- rows

// One row more is counted, up to the limit of the text.
#[tactic(auto, unfolding(crate::specs::Room::counted_on))]
fn counted_on(count: u32) -> u32
    ensures { result ≡ counted_on count }
{
    if count < LIMIT { count + 1 } else { count }
}

// A row behind those that are counted, where it fits.
fn put_row(rows: &mut [u32], count: u32, kind: u32, from: u32, to: u32) -> u32
    ensures { filled_with result rows.new ≡ add_row (filled_with count rows.old) (token_row kind from to) }
{
    store_numbers::put(rows, lists::wide(count) * 3, [kind, from, to]);
    counted_on(count)
}

// The rows of the tokens that the byte at a place completes.
fn put_tokens(rows: &mut [u32], count: u32, at: u32, tokens: Tokens) -> u32
    requires { at < text_limit }
    ensures { filled_with result rows.new ≡ add_rows (filled_with count rows.old) (rows_at tokens at) }
{
    match tokens {
        Tokens::Silent => count,
        Tokens::Single(kind) => put_row(rows, count, kind, at, at + 1),
        Tokens::Property(from) => put_row(rows, count, 4, from, at),
        Tokens::Both(from, kind) => {
            let more = put_row(rows, count, 4, from, at);
            put_row(rows, more, kind, at, at + 1)
        }
    }
}

// ---- one byte

// The token rules go on, and UTF-8 stands so.
#[tactic(auto, unfolding(crate::specs::Room::goes))]
fn go_on(k: BlocksKnown, utf8: Utf8, b: u8, rows: &mut [u32]) -> BlocksKnown
    requires { k.total < text_limit }
    ensures { room result rows.new ≡ goes utf8 (room k rows.old) b }
{
    let at = k.total;
    let moved = blocks_step::token_next(k.now, at, b);
    BlocksKnown {
        total: at + 1,
        utf8,
        now: moved.next,
        count: put_tokens(rows, k.count, at, moved.tokens),
        ..k
    }
}

// One byte more.
fn take_byte(k: BlocksKnown, b: u8, rows: &mut [u32]) -> BlocksKnown
    ensures { room result rows.new ≡ takes_byte (room k rows.old) b }
{
    let at = k.total;
    if LIMIT <= at {
        return BlocksKnown {
            total: LIMIT + 1,
            ..k
        };
    }
    match blocks_step::utf8_next(k.utf8, at, b) {
        Char::Ended(true) if k.last == 0 => BlocksKnown {
            total: at + 1,
            utf8: Utf8::Whole,
            now: k.kept,
            count: k.held,
            ..k
        },
        Char::Ended(true) => go_on(k, Utf8::Whole, b, rows),
        Char::Ended(false) => {
            let g = go_on(k, Utf8::Whole, b, rows);
            BlocksKnown {
                last: g.total,
                kept: g.now,
                held: g.count,
                ..g
            }
        }
        Char::Goes(stands) => go_on(k, stands, b, rows),
    }
}

// ---- bytes of a value together

// ASCII, and neither `]` nor a backslash.
fn is_plain(b: u8) -> bool
    ensures { result ≡ true → PlainByte b }
{
    (b < 128) & (b != b']') & (b != b'\\')
}

// Are `n` bytes so: no early way out, so that the compiler takes 16 at once.
fn all_plain(s: &[u8], i: usize, n: usize) -> bool
    requires { i + n ≤ length s.now }
    ensures { result ≡ true → (j : ℕ) → j < n → PlainByte (get_or s.now (i + j) 0) }
{
    let mut plain = true;
    for &b in &s[i..i + n] {
        plain = plain & is_plain(b);
    }
    plain
}

// How many of `n` such bytes from `i` on can be taken together: the last of them is no white space; so all, or all but one, or none.
fn plain_run(s: &[u8], i: usize, n: u32) -> u32
    requires { (i ≤ length s.now) × (1 < n) }
    ensures { (result ≤ n) × (0 < result → PlainRun s.now i result) }
{
    let m = lists::wide(n);
    if s.len() - i < m {
        return 0;
    }
    if all_plain(s, i, m) {
        if 32 < s[i + (m - 1)] {
            return n;
        }
        if 32 < s[i + (m - 2)] {
            return n - 1;
        }
    }
    0
}

// How many bytes of a value can be taken together: 64, 16 or 8, or one less, or none.
fn value_run(stands: Phase, bytes: &[u8], i: usize) -> u32
    requires { i ≤ length bytes.now }
    ensures { (result ≤ 64) × (0 < result → ValueRun stands bytes.now i result) }
{
    let Phase::Value(_) = stands else {
        return 0;
    };
    match plain_run(bytes, i, 16) {
        0 => plain_run(bytes, i, 8),
        some => match plain_run(bytes, i, 64) {
            0 => some,
            wide => wide,
        },
    }
}

// Such a byte, and no white space.
fn is_point(b: u8) -> bool
    ensures { result ≡ true → PointByte b }
{
    (b' ' < b) & is_plain(b)
}

// Do two such bytes and a `]` stand behind the byte at `i`.
fn is_pair(s: &[u8], i: usize) -> bool
    requires { i < length s.now }
    ensures { result ≡ true → PairAt s.now i }
{
    s.len() - i >= 4 && s[i + 3] == b']' && is_point(s[i + 1]) && is_point(s[i + 2])
}

// Is the `[` at `i` one of a value of two such bytes.
fn pair_run(stands: Phase, bytes: &[u8], i: usize) -> Option<Phase>
    requires { i < length bytes.now }
    ensures { PairIs stands bytes.now i result }
{
    match stands {
        Phase::Ident(start) | Phase::After(start) if is_pair(bytes, i) => {
            Some(Phase::After(start))
        }
        _ => None,
    }
}

// ---- one ASCII byte that is no white space
// Apart from `blocks_step::token_next`: by that function here game text took a third longer (the aim: docs/BENCHMARKS.md, Blocks).

// Where the token rules stand then.
#[tactic(auto, unfolding(blocks_step::specs::Lean::moves, blocks_step::specs::Lean::kind_of, blocks_step::specs::Lean::property_phase, lexer_scan::specs::Scan::space))]
fn ink_next(stands: Phase, at: u32, b: u8) -> Phase
    requires { (32 < b) × (b < 128) }
    ensures { result ≡ (moves stands at b).next }
{
    match (stands, b) {
        (Phase::Value(start), b']') => Phase::After(start),
        (Phase::Value(start), b'\\') => Phase::Escaped(start),
        (Phase::Ident(start) | Phase::After(start), b'[') => Phase::Value(start),
        (Phase::Between | Phase::After(_), b'(' | b')' | b';') => Phase::Between,
        (Phase::Between, b'[') => Phase::Value(at),
        (Phase::Between | Phase::After(_), _) => Phase::Ident(at),
        (Phase::Escaped(start), _) => Phase::Value(start),
        _ => stands,
    }
}

// The rows of the tokens that it completes.
#[tactic(auto, unfolding(blocks_step::specs::Lean::moves, blocks_step::specs::Lean::kind_of, blocks_step::specs::Lean::property_phase, lexer_scan::specs::Scan::space))]
fn ink_rows(stands: Phase, at: u32, b: u8, count: u32, rows: &mut [u32]) -> u32
    requires { (32 < b) × (b < 128) × (at < text_limit) }
    ensures { filled_with result rows.new ≡ add_rows (filled_with count rows.old) (rows_at (moves stands at b).tokens at) }
{
    let count = match stands {
        Phase::Between => count,
        Phase::After(start) if b != b'[' => put_row(rows, count, 4, start, at),
        _ => return count,
    };
    match blocks_step::kind(b) {
        0 => count,
        kind => put_row(rows, count, kind, at, at + 1),
    }
}

// Does white space leave the token rules as they stand: not after a backslash.
fn holds_white(stands: Phase) -> bool
    ensures { result ≡ true → WhiteStays stands }
{
    !matches!(stands, Phase::Escaped(_))
}

// ---- ASCII bytes

// How far they were taken, and what is known there: the rules and the rows stand as after the last character that is no white space.
#[derive(Clone, Copy)]
pub struct Ran {
    pub to: usize,
    pub total: u32,
    pub last: u32,
    pub stands: Phase,
    pub count: u32,
}

// Does no byte since the last character that is no white space matter, with no character begun.
fn is_steady(k: BlocksKnown) -> bool
    ensures { result ≡ true → Steady k }
{
    let Utf8::Whole = k.utf8 else {
        return false;
    };
    (k.last != 0) & (k.held == k.count) & (k.now == k.kept)
}

// Takes ASCII bytes from there on: values of two bytes and runs within a value together, white space where it changes nothing.
fn steady_run(
    stands: Phase,
    at: u32,
    last: u32,
    count: u32,
    bytes: &[u8],
    from: usize,
    rows: &mut [u32],
) -> Ran
    requires { (from ≤ length bytes.now) × (0 < last) }
    ensures { RanIs (steady_at at last stands count) bytes.now from rows.old result rows.new }
{
    let mut p = stands;
    let mut i = from;
    let mut place = at;
    let mut ink = last;
    let mut n = count;
    let mut again = from;
    // A while: i moves by one byte, by a pair's four or by the length of a run.
    while i < bytes.len() {
        if LIMIT - 64 < place {
            break;
        }
        let b = bytes[i];
        if b == b'[' {
            if let Some(q) = pair_run(p, bytes, i) {
                p = q;
                i += 4;
                place += 4;
                ink = place;
                continue;
            }
        }
        if again <= i {
            let run = value_run(p, bytes, i);
            if 0 < run {
                i += lists::wide(run);
                place += run;
                ink = place;
                again = i;
                continue;
            }
            again = i + 8;
        }
        if 128 <= b {
            break;
        }
        if b <= 32 {
            if lexer_scan::is_space(b) & holds_white(p) {
                i += 1;
                place += 1;
                continue;
            }
            break;
        }
        n = ink_rows(p, place, b, n, rows);
        p = ink_next(p, place, b);
        i += 1;
        place += 1;
        ink = place;
    }
    Ran {
        to: i,
        total: place,
        last: ink,
        stands: p,
        count: n,
    }
}

// What is known there.
#[tactic(auto, unfolding(crate::specs::LocalsSteady::steady_at))]
fn known_there(r: Ran) -> BlocksKnown
    ensures { result ≡ ran_to r }
{
    BlocksKnown {
        total: r.total,
        utf8: Utf8::Whole,
        last: r.last,
        now: r.stands,
        count: r.count,
        kept: r.stands,
        held: r.count,
    }
}

// How far bytes were taken, and what is known there.
#[derive(Clone, Copy)]
pub struct Went {
    pub to: usize,
    pub known: BlocksKnown,
}

// Takes ASCII bytes where what is known is steady, else none.
fn run_on(k: BlocksKnown, bytes: &[u8], from: usize, rows: &mut [u32]) -> Went
    requires { from ≤ length bytes.now }
    ensures { WentIs k bytes.now from rows.old result rows.new }
{
    if !is_steady(k) {
        return Went { to: from, known: k };
    }
    let ran = steady_run(k.now, k.total, k.last, k.count, bytes, from, rows);
    Went {
        to: ran.to,
        known: known_there(ran),
    }
}

// The same, and one byte more where there is one.
fn step_on(k: BlocksKnown, bytes: &[u8], from: usize, rows: &mut [u32]) -> Went
    requires { from < length bytes.now }
    ensures { (from < result.to) × WentIs k bytes.now from rows.old result rows.new }
{
    let went = run_on(k, bytes, from, rows);
    if bytes.len() <= went.to {
        return went;
    }
    Went {
        to: went.to + 1,
        known: take_byte(went.known, bytes[went.to], rows),
    }
}

// ---- a block

// The number, 0 or 20, and what is known then.
#[repr(C)]
#[derive(Clone, Copy)]
pub struct Blocked {
    pub number: u32,
    pub state: BlocksState,
}

// A block of the text; 20 after close.
pub fn block(state: BlocksState, bytes: &[u8], rows: &mut [u32]) -> Blocked
    ensures { BlockIs state bytes.now rows.old result rows.new }
{
    if state.closed != 0 {
        return Blocked { number: 20, state };
    }
    let mut went = Went {
        to: 0,
        known: known_of(state),
    };
    // A while: each step says how far it went.
    while went.to < bytes.len() {
        went = step_on(went.known, bytes, went.to, rows);
    }
    Blocked {
        number: 0,
        state: state_of(went.known),
    }
}

// ---- close

// The end of the text: refused, with the number and the place; or so many rows; or so many and a property at last.
#[derive(Clone, Copy)]
pub enum Closing {
    Refused(u32, u32),
    Rows(u32),
    Last(u32, u32, u32),
}

// How the tokens end, after the last character that is no white space.
#[tactic(auto, unfolding(crate::specs::Close::closing))]
fn closing_of(k: BlocksKnown) -> Closing
    ensures { result ≡ closing k }
{
    if LIMIT < k.total {
        return Closing::Refused(1, 0);
    }
    if let Utf8::Within(_, from, _) | Utf8::Bad(from) = k.utf8 {
        return Closing::Refused(2, from);
    }
    if k.last == 0 {
        return Closing::Rows(0);
    }
    match k.kept {
        Phase::Between => Closing::Rows(k.held),
        Phase::Ident(from) => Closing::Refused(3, from),
        Phase::Value(from) | Phase::Escaped(from) => Closing::Refused(5, from),
        Phase::After(from) => Closing::Last(k.held, from, k.last),
        Phase::Foreign(from) => Closing::Refused(4, from),
    }
}

// Zeros from a row on to the last whole row.
fn clear(rows: &mut [u32], first: usize)
    requires { first ≤ length rows.old / 3 }
    ensures { rows.new ≡ cleared_rows rows.old first }
{
    let end = rows.len() / 3 * 3;
    rows[first * 3..end].fill(0);
}

// The number and place, the number of tokens, and that it is closed.
#[repr(C)]
#[derive(Clone, Copy)]
pub struct Closed {
    pub number: u32,
    pub place: usize,
    pub tokens: usize,
    pub state: BlocksState,
}

// The same, closed.
fn shut(s: BlocksState) -> BlocksState
    ensures { result ≡ shut_of s }
{
    BlocksState { closed: 1, ..s }
}

// What is refused leaves no row.
fn refuse(state: BlocksState, number: u32, place: u32, rows: &mut [u32]) -> Closed
    ensures { (result ≡ refused_at state number place) × (rows.new ≡ cleared_rows rows.old 0) }
{
    clear(rows, 0);
    Closed {
        number,
        place: lists::wide(place),
        tokens: 0,
        state: shut(state),
    }
}

// So many tokens.
fn accept(state: BlocksState, tokens: usize) -> Closed
    ensures { result ≡ accepted_with state tokens }
{
    Closed {
        number: 0,
        place: 0,
        tokens,
        state: shut(state),
    }
}

// The end of the text; 20 after close.
pub fn close(state: BlocksState, rows: &mut [u32]) -> Closed
    ensures { CloseIs state rows.old result rows.new }
{
    if state.closed != 0 {
        return Closed {
            number: 20,
            place: 0,
            tokens: 0,
            state,
        };
    }
    let room = rows.len() / 3;
    match closing_of(known_of(state)) {
        Closing::Refused(number, place) => refuse(state, number, place, rows),
        Closing::Rows(count) => {
            let n = lists::wide(count);
            if room < n {
                return refuse(state, 14, 0, rows);
            }
            clear(rows, n);
            accept(state, n)
        }
        Closing::Last(count, from, to) => {
            let n = lists::wide(count);
            if room <= n {
                return refuse(state, 14, 0, rows);
            }
            store_numbers::put(rows, n * 3, [4, from, to]);
            clear(rows, n + 1);
            accept(state, n + 1)
        }
    }
}
