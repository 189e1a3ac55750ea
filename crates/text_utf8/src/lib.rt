#![tactic(auto)]

ghost use Rattle.std.specs.Prelude.{◌≡◌, true, ℕ, ◌+◌, ◌-◌, ◌<◌, ◌≤◌, length, get_or};
ghost use Rattle.text_utf8.specs.Text.{mark};
ghost use Rattle.text_utf8.specs.Locals.{ink_of, Plain};
ghost use Rattle.text_utf8.specs.Trim.{trimmed};

// What a text keeps when it is trimmed: it is not UTF-8 (the start of the first bad sequence); nothing but white space; or first and last place.
#[derive(Clone, Copy)]
pub enum Trimmed {
    NotUtf8(usize),
    Blank,
    Kept(usize, usize),
}

// What has been seen of a text: from `first` to `last` what is kept so far; `last` is 0 as long as all is white space.
#[derive(Clone, Copy)]
struct Seen {
    first: usize,
    last: usize,
}

// One character more, from `start` to `end`.
fn marked(seen: Seen, white: bool, start: usize, end: usize) -> Seen
    requires { 0 < end }
    ensures { ink_of result ≡ mark white (ink_of seen) start end }
{
    if white {
        return seen;
    }
    if seen.last == 0 {
        return Seen {
            first: start,
            last: end,
        };
    }
    Seen {
        first: seen.first,
        last: end,
    }
}

// Are all ASCII: no early way out, so that the compiler takes 16 at once. The library's is_ascii takes 8, and is slower here.
fn all_ascii(block: &[u8]) -> bool
    ensures { result ≡ true → (k : ℕ) → k < length block.now → get_or block.now k 0 < 128 }
{
    let mut low = true;
    for b in block {
        low = low & (*b < 128);
    }
    low
}

// How many of `n` bytes from `i` on are plain, all or all but one: ASCII, the last of them no white space; else 0.
fn plain_run(s: &[u8], i: usize, n: usize) -> usize
    requires { (i + n ≤ length s.now) × (2 ≤ n) }
    ensures { 0 < result → Plain (result - 1) s.now i }
{
    if !all_ascii(&s[i..i + n]) {
        return 0;
    }
    if 32 < s[i + n - 1] {
        return n;
    }
    if 32 < s[i + n - 2] {
        return n - 1;
    }
    0
}

// How many plain bytes are found from `i` on: of 64, or else of 16.
fn plain_at(s: &[u8], i: usize) -> usize
    requires { i ≤ length s.now }
    ensures { 0 < result → Plain (result - 1) s.now i }
{
    if s.len() - i < 16 {
        return 0;
    }
    if 64 <= s.len() - i {
        let n = plain_run(s, i, 64);
        if 0 < n {
            return n;
        }
    }
    plain_run(s, i, 16)
}

// What trimming keeps of a text. Within what is kept, plain bytes are taken together; where there are none, not tried again for 16 bytes.
pub fn trim(text: &[u8]) -> Trimmed
    ensures { result ≡ trimmed text.now }
{
    let mut seen = Seen { first: 0, last: 0 };
    let mut i = 0;
    let mut again = 0;
    // A while: i moves by the width of a character, or past a run.
    while i < text.len() {
        if (0 < seen.last) & (again <= i) {
            let n = plain_at(text, i);
            if 0 < n {
                i += n;
                seen.last = i;
                continue;
            }
            again = i + 16;
        }
        let b = text[i];
        if b < 128 {
            seen = marked(seen, text_chars::is_white(b as u32), i, i + 1);
            i += 1;
            continue;
        }
        let Some((width, white)) = text_chars::char_at(text, i) else {
            return Trimmed::NotUtf8(i);
        };
        seen = marked(seen, white, i, i + width);
        i += width;
    }
    if seen.last == 0 {
        return Trimmed::Blank;
    }
    Trimmed::Kept(seen.first, seen.last)
}
