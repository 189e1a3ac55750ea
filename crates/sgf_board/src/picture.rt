// A board in letters: a row a line, X black and O white, a marked place between ( and ).

// SGF's letter of a coordinate.
pub fn letter(coordinate: usize) -> u8 {
    if coordinate < 26 {
        return b'a' + (coordinate as u8);
    }
    if coordinate < 52 {
        return b'A' + ((coordinate - 26) as u8);
    }
    b'?'
}

// The sign at a place: X black, O white.
fn sign(stones: &[u8; 2704], place: usize) -> u8 {
    if 2704 <= place {
        return b'.';
    }
    let stone = stones[place];
    if stone == 1 {
        return b'X';
    }
    if stone == 2 {
        return b'O';
    }
    b'.'
}

// The place of a point; 2,704 where there is none.
pub fn place_of(x: usize, y: usize) -> usize {
    if 51 < x {
        return 2704;
    }
    if 51 < y {
        return 2704;
    }
    52 * x + y
}

// What stands before a place: ( where it is marked, ) where the one before is.
fn edge(is_marked: bool, was_marked: bool) -> u8 {
    if is_marked {
        return b'(';
    }
    if was_marked {
        return b')';
    }
    b' '
}

// The letters of the columns, a line.
fn say_columns(columns: usize) {
    let mut line = io::buffer();
    let mut at = store_bytes::put_byte(&mut line, 0, b' ');
    for x in 0..columns {
        at = store_bytes::put_byte(&mut line, at, b' ');
        at = store_bytes::put_byte(&mut line, at, letter(x));
    }
    at = store_bytes::put_byte(&mut line, at, b'\n');
    io::write_all(1, tool::first(&line, at));
}

// The end of a row, behind a marked place or another.
fn say_end(was_marked: bool) {
    if was_marked {
        io::write_all(1, b")\n");
        return;
    }
    io::write_all(1, b"\n");
}

// Row y, a line.
fn say_row(stones: &[u8; 2704], columns: usize, y: usize, mark: usize) {
    let mut line = io::buffer();
    let mut at = store_bytes::put_byte(&mut line, 0, letter(y));
    let mut was_marked = false;
    for x in 0..columns {
        let place = place_of(x, y);
        let is_marked = place == mark;
        at = store_bytes::put_byte(&mut line, at, edge(is_marked, was_marked));
        at = store_bytes::put_byte(&mut line, at, sign(stones, place));
        was_marked = is_marked;
    }
    io::write_all(1, tool::first(&line, at));
    say_end(was_marked);
}

// The columns' letters, then every row.
pub fn say_picture(stones: &[u8; 2704], columns: usize, rows: usize, mark: usize) {
    say_columns(columns);
    for y in 0..rows {
        say_row(stones, columns, y, mark);
    }
}
