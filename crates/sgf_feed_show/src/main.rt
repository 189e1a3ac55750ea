// Standard input, a feed, as lines `K BYTES`; a malformed one is one line.
#![tactic(auto)]

fn show(feed: &[u8], count: usize, size: usize) {
    let mut low: usize = 0;
    let mut at = size;
    for _ in 0..count {
        let Some((value, from, to)) = feed::next_at(feed, low, at) else {
            return;
        };
        io::print_decimal(1, value as u64);
        io::write_all(1, b" ");
        if let Some(bytes) = feed.get(from..to) {
            io::write_all(1, bytes);
        }
        io::write_all(1, b"\n");
        low = value.saturating_add(1);
        at = to;
    }
}

fn show_feed(feed: &[u8]) {
    if !feed::is_feed(feed) {
        io::write_all(1, b"refused 24 at 0\n");
        return;
    }
    if let Some((count, size)) = feed_numerals::read_numeral(feed, 0) {
        show(feed, count, size);
    }
}

fn main() {
    let mut input = tool::text_room();
    let n = io::read_full(0, &mut input);
    if 65536 < n {
        io::write_all(1, b"the feed has more than 65,536 bytes\n");
        return;
    }
    show_feed(&input[..n]);
}
