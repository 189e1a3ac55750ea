// Whether a feed may be applied to a record, before lengths are looked at: 19, 24, then for each correction 16, 17, 2, 18.
#![tactic(auto)]

ghost use Rattle.std.specs.Prelude.{◌≡◌, ◌&&◌, ◌+◌, ◌/◌, ◌<◌, ◌≤◌, ◌^◌, ltb, length};
ghost use Rattle.std.proofs.Math.Seq.{slice};
ghost use Rattle.lists.specs.Same.{same};
ghost use Rattle.lexer.specs.Closed.{closed};
ghost use Rattle.text_utf8.specs.Trim.{trimmed};
ghost use Rattle.parser.specs.Game.{GM};
ghost use Rattle.tables.specs.Columns.{property_stride, name_from_at, name_to_at};
ghost use Rattle.tables.specs.Each.{tabulate};
ghost use Rattle.tables.specs.Memory.{memory};
ghost use Rattle.fit.specs.Record.{prop_row};
ghost use Rattle.edit_answer.specs.Locals.{NamesLie};
ghost use Rattle.feed.specs.Feed.{listing};
ghost use Rattle.feed_check.specs.Check.{feed_number, bytes_judged, corrections_judged, feed_checked};
ghost use Rattle.feed_check.specs.LocalsOwner.{Behind, Holds, tested_by};

use tables::{Counts, Refusal};
use text_utf8::Trimmed;

// Why a feed is refused.
#[derive(Clone, Copy)]
pub enum FeedRefusal {
    NotFitting,
    Malformed,
    NoSuchNumber,
    GameTypeFixed,
    NotUtf8,
    NotClosed,
    TextTooLong,
    NoRoom,
}

impl From<FeedRefusal> for u32 {
    ghost from_gives = { λ refusal to. to ≡ feed_number refusal };

    // The number of a refusal.
    fn from(refusal: FeedRefusal) -> u32 {
        match refusal {
            FeedRefusal::NotFitting => 19,
            FeedRefusal::Malformed => 24,
            FeedRefusal::NoSuchNumber => 16,
            FeedRefusal::GameTypeFixed => 17,
            FeedRefusal::NotUtf8 => 2,
            FeedRefusal::NotClosed => 18,
            FeedRefusal::TextTooLong => 1,
            FeedRefusal::NoRoom => 14,
        }
    }
}

// What new bytes that stand at a place of the feed are answered: 2, 18.
fn judge_bytes(new: &[u8], at: usize) -> Result<(), Refusal<FeedRefusal>>
    requires { at + length new.now < 2 ^ 64 }
    ensures { result ≡ bytes_judged at (trimmed new.now) (closed new.now) }
{
    if let Trimmed::NotUtf8(place) = text_utf8::trim(new) {
        return Err(Refusal {
            reason: FeedRefusal::NotUtf8,
            place: at + place,
        });
    }
    if !edit_answer::is_closed(new) {
        return Err(Refusal {
            reason: FeedRefusal::NotClosed,
            place: 0,
        });
    }
    Ok(())
}

// The first property, from one on that no property before has value k, that has a value behind it; n where there is none.
fn owner_from(properties: &[u32], n: usize, from: usize, k: usize) -> usize
    requires { (n ≤ length properties.now / property_stride) × Behind properties.now n from k }
    ensures { Behind properties.now n result k × Holds properties.now n result k }
{
    for p in from..n {
        let at = p * tables::PROPERTY_STRIDE;
        let first = lists::wide(properties[at + tables::PROPERTY_FIRST]);
        let count = lists::wide(properties[at + tables::PROPERTY_COUNT]);
        if k < first + count {
            return p;
        }
    }
    n
}

// Whether property p, where there is one, has the raw identifier `GM`.
fn is_game_type(text: &[u8], properties: &[u32], n: usize, p: usize) -> bool
    requires { (n ≤ length properties.now / property_stride) × NamesLie properties.now n (length text.now) }
    ensures { result ≡ (ltb p n && same (slice (name_from_at properties.now p) (name_to_at properties.now p) text.now) GM) }
{
    if n <= p {
        return false;
    }
    let at = p * tables::PROPERTY_STRIDE;
    let start = lists::wide(properties[at]);
    let end = lists::wide(properties[at + tables::PROPERTY_END]);
    edit_answer::is_gm(&text[start..end])
}

// What one correction is answered: whether its number is known, whether its property is the game type, then its bytes.
fn judge_one(known: bool, fixed: bool, new: &[u8], at: usize) -> Result<(), Refusal<FeedRefusal>>
    requires { at + length new.now < 2 ^ 64 }
    ensures { result ≡ tested_by known fixed (bytes_judged at (trimmed new.now) (closed new.now)) }
{
    if !known {
        return Err(Refusal {
            reason: FeedRefusal::NoSuchNumber,
            place: 0,
        });
    }
    if fixed {
        return Err(Refusal {
            reason: FeedRefusal::GameTypeFixed,
            place: 0,
        });
    }
    judge_bytes(new, at)
}

// What the corrections of a feed are answered, one after another.
fn judge_all(
    text: &[u8],
    properties: &[u32],
    n: usize,
    total: usize,
    feed: &[u8],
) -> Result<(), Refusal<FeedRefusal>>
    requires { (n ≤ length properties.now / property_stride) × NamesLie properties.now n (length text.now) }
    ensures { result ≡ corrections_judged text.now (tabulate (prop_row properties.now) 0 n) total feed.now
        (listing feed.now).entries }
{
    let Some((count, mut at)) = feed_numerals::read_numeral(feed, 0) else {
        return Ok(());
    };
    let mut low: usize = 0;
    let mut p: usize = 0;
    for _ in 0..count {
        let Some((value, from, to)) = feed::next_at(feed, low, at) else {
            return Ok(());
        };
        let owner = owner_from(properties, n, p, value);
        let fixed = is_game_type(text, properties, n, owner);
        judge_one(value < total, fixed, &feed[from..to], from)?;
        low = value + 1;
        at = to;
        p = owner;
    }
    Ok(())
}

// Whether a feed may be applied to a record, but for the length of the text.
pub fn check_feed(
    text: &[u8],
    used: usize,
    counts: Counts,
    trees: &[u32],
    nodes: &[u32],
    properties: &[u32],
    values: &[u32],
    feed: &[u8],
) -> Result<(), Refusal<FeedRefusal>>
    ensures { result ≡ feed_checked
        (memory text.now used counts trees.now nodes.now properties.now values.now)
        feed.now }
{
    if !fit::fits(text, used, counts, trees, nodes, properties, values) {
        return Err(Refusal {
            reason: FeedRefusal::NotFitting,
            place: 0,
        });
    }
    if !feed::is_feed(feed) {
        return Err(Refusal {
            reason: FeedRefusal::Malformed,
            place: 0,
        });
    }
    judge_all(
        &text[..used],
        properties,
        counts.properties,
        counts.values,
        feed,
    )
}
