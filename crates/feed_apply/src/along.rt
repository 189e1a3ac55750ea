// The corrections of a feed one after another, with how much longer and shorter they make the values.
ghost use Rattle.std.specs.Prelude.{◌≡◌, ◌+◌, ◌-◌, ◌<◌, ◌≤◌, ◌^◌, length};
ghost use Rattle.feed_apply.specs.LocalsAlong.{Ahead, Stands, Uncorrected};

// The next correction: how many follow it, its value, n where there is none, and its bytes in the feed; what the values before it have grown and shrunk by.
#[derive(Clone, Copy)]
pub struct Along {
    pub left: usize,
    pub due: usize,
    pub from: usize,
    pub to: usize,
    pub grown: usize,
    pub shrunk: usize,
}

// The next of `left` corrections from a place on, of a value that is not below `low`.
fn seek(
    feed: &[u8],
    n: usize,
    left: usize,
    low: usize,
    at: usize,
    grown: usize,
    shrunk: usize,
) -> Along
    requires { Ahead feed.now n left low at × (low ≤ n) × (at ≤ length feed.now) × (grown ≤ at) }
    ensures { Stands feed.now n result × Uncorrected feed.now low result.due × (low ≤ result.due)
        × (result.grown ≡ grown) × (result.shrunk ≡ shrunk) }
{
    if left == 0 {
        return Along {
            left: 0,
            due: n,
            from: at,
            to: at,
            grown: grown,
            shrunk: shrunk,
        };
    }
    match feed::next_at(feed, low, at) {
        None => Along {
            left: 0,
            due: n,
            from: at,
            to: at,
            grown: grown,
            shrunk: shrunk,
        },
        Some((value, from, to)) => {
            if n <= value {
                return Along {
                    left: 0,
                    due: n,
                    from: at,
                    to: at,
                    grown: grown,
                    shrunk: shrunk,
                };
            }
            Along {
                left: left - 1,
                due: value,
                from: from,
                to: to,
                grown: grown,
                shrunk: shrunk,
            }
        }
    }
}

// The first correction of a value below n.
pub fn begin(feed: &[u8], n: usize) -> Along
    ensures { Stands feed.now n result × Uncorrected feed.now 0 result.due × (result.grown ≡ 0) × (result.shrunk ≡ 0) }
{
    match feed_numerals::read_numeral(feed, 0) {
        None => seek(feed, n, 0, 0, 0, 0, 0),
        Some((count, size)) => seek(feed, n, count, 0, size, 0, 0),
    }
}

// The one after it, where its value had `old` bytes.
pub fn pass(feed: &[u8], n: usize, s: Along, old: usize) -> Along
    requires { (s.due < n) × Stands feed.now n s × (s.shrunk + old < 2 ^ 64) }
    ensures { Stands feed.now n result × Uncorrected feed.now (s.due + 1) result.due × (s.due < result.due)
        × (result.grown ≡ s.grown + (s.to - s.from - old)) × (result.shrunk ≡ s.shrunk + (old - (s.to - s.from))) }
{
    let size = s.to - s.from;
    if size <= old {
        return seek(
            feed,
            n,
            s.left,
            s.due + 1,
            s.to,
            s.grown,
            s.shrunk + (old - size),
        );
    }
    seek(
        feed,
        n,
        s.left,
        s.due + 1,
        s.to,
        s.grown + (size - old),
        s.shrunk,
    )
}
