// The line of a file.
ghost use Rattle.std.specs.Prelude.{◌<◌, ◌^◌};

use season_totals::Line;
use std::fs::File;
use std::io::Read;
use std::os::fd::AsRawFd;

// Of a text, in rows of trees, nodes, properties and values and bytes of a writing, so many of each; 14 where they are too few.
fn line_in<const T: usize, const N: usize, const P: usize, const V: usize, const B: usize>(
    text: &[u8],
) -> Line
    requires { (T < 2 ^ 32) × (N < 2 ^ 32) × (P < 2 ^ 32) × (V < 2 ^ 32) × (B < 2 ^ 32) }
{
    let mut trees = [0u32; T];
    let mut nodes = [0u32; N];
    let mut properties = [0u32; P];
    let mut values = [0u32; V];
    let mut out = [0u8; B];
    season::line(
        text,
        &mut trees,
        &mut nodes,
        &mut properties,
        &mut values,
        &mut out,
    )
}

// In what is enough for most texts of 8,192 bytes, in a sixth of the memory: for 1,024 trees, 2,048 nodes and properties, 4,096 values.
fn quick_line(text: &[u8]) -> Line {
    line_in::<2048, 12288, 8192, 8192, 16384>(text)
}

// In enough for any text of 8,192 bytes, a tenth of the rows of the largest.
fn small_line(text: &[u8]) -> Line {
    line_in::<16384, 49152, 16384, 16384, 400000>(text)
}

// In enough for any text of 65,536 bytes.
fn large_line(text: &[u8]) -> Line {
    line_in::<65536, 393216, 131072, 65536, 400000>(text)
}

// Of an open file; one above 65,536 bytes is refused before it is read.
fn open_line(file: &File, text: &mut [u8]) -> Line {
    let n = io::read_full(file.as_raw_fd(), text);
    if 65536 < n {
        return Line::Refused(1);
    }
    if 8192 < n {
        return large_line(tool::first(text, n));
    }
    match quick_line(tool::first(text, n)) {
        Line::Refused(14) => small_line(tool::first(text, n)),
        line => line,
    }
}

// A folder opens, and the first read of it fails.
pub fn is_folder(file: &mut File) -> bool {
    let mut none = io::buffer();
    file.read(&mut none[..0]).is_err()
}

// The next read of a file fails, as the last one did that ended before the file.
fn is_failing(file: &mut File) -> bool {
    let mut more = [0u8; 1];
    file.read(&mut more).is_err()
}

// Of a file by its name; one whose reading fails is unread.
pub fn file_line(rt: &HostRuntime, name: &[u8]) -> Line {
    let Ok(path) = str::from_utf8(name) else {
        return Line::Unread;
    };
    let Ok(mut file) = File::open(rt, path) else {
        return Line::Unread;
    };
    if is_folder(&mut file) {
        return Line::Unread;
    }
    let mut text = tool::text_room();
    let line = open_line(&file, &mut text);
    if is_failing(&mut file) {
        return Line::Unread;
    }
    line
}
