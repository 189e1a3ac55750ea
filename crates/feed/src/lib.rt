// A feed of corrections: read, looked into, made.
#![tactic(auto)]

pub mod make; // make.rt: a feed's count and one correction, put

ghost use Rattle.std.specs.Prelude.{◌≡◌};
ghost use Rattle.feed_numerals.specs.Numeral.{numeral_limit};
ghost use Rattle.feed.specs.Feed.{entry_at, listing};
ghost use Rattle.feed.specs.Find.{found_in};
ghost use Rattle.feed.specs.LocalsNext.{Lies};

// The correction at a place, of a value whose number is not below `low`.
pub fn next_at(feed: &[u8], low: usize, at: usize) -> Option<(usize, usize, usize)>
    ensures { (result ≡ entry_at feed.now low at) × Lies feed.now low numeral_limit result }
{
    let (value, n) = feed_numerals::read_numeral(feed, at)?;
    if value < low {
        return None;
    }
    let (size, m) = feed_numerals::read_numeral(feed, at + n)?;
    let from = at + n + m;
    if feed.len() - from < size {
        return None;
    }
    Some((value, from, from + size))
}

// Whether a feed is well-formed, and nothing stands behind its end.
pub fn is_feed(feed: &[u8]) -> bool
    ensures { result ≡ (listing feed.now).whole }
{
    let Some((count, mut at)) = feed_numerals::read_numeral(feed, 0) else {
        return false;
    };
    let mut low: usize = 0;
    for _ in 0..count {
        let Some((value, _, to)) = next_at(feed, low, at) else {
            return false;
        };
        low = value + 1;
        at = to;
    }
    at == feed.len()
}

// Where the new bytes of value k stand, among the corrections before the first fault.
pub fn find(feed: &[u8], k: usize) -> Option<(usize, usize)>
    ensures { result ≡ found_in (listing feed.now).entries k }
{
    let (count, mut at) = feed_numerals::read_numeral(feed, 0)?;
    let mut low: usize = 0;
    for _ in 0..count {
        let (value, from, to) = next_at(feed, low, at)?;
        if value == k {
            return Some((from, to));
        }
        low = value + 1;
        at = to;
    }
    None
}
