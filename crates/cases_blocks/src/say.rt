// The output: what calls answer, and the lent numbers.

fn say_number(n: u64) {
    io::print_decimal(1, n);
}

// What a block answers.
pub fn say_blocked(number: u32) {
    io::write_all(1, b"block ");
    say_number(number as u64);
    io::write_all(1, b" ");
}

// What the close answers.
pub fn say_closed(number: u32, place: usize, tokens: usize) {
    io::write_all(1, b"close ");
    say_number(number as u64);
    io::write_all(1, b" at ");
    say_number(place as u64);
    io::write_all(1, b" tokens ");
    say_number(tokens as u64);
    io::write_all(1, b" ");
}

fn say_bar() {
    io::write_all(1, b"|");
}

fn say_next(n: u32) {
    io::write_all(1, b" ");
    say_number(n as u64);
}

// The lent numbers behind a bar.
pub fn say_numbers(rows: &[u32]) {
    say_bar();
    for &n in rows {
        say_next(n);
    }
}
