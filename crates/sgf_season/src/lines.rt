// A stream, line by line, through a block that is lent, so that it may have any length.
use std::io::Read;

// A stream: the bytes of the block from `at` on, below `end`, are still to be taken.
#[derive(Clone, Copy)]
pub struct Stream {
    at: usize,
    end: usize,
}

impl Stream {
    // A stream of which nothing was read.
    pub fn new() -> Stream {
        Stream { at: 0, end: 0 }
    }

    // The next byte, if there is one more.
    fn next_byte(&mut self, file: &mut impl Read, block: &mut [u8]) -> Option<u8> {
        if self.end <= self.at {
            self.at = 0;
            self.end = file.read(block).unwrap_or(0);
        }
        if self.end <= self.at {
            return None;
        }
        let b = *block.get(self.at)?;
        self.at += 1;
        Some(b)
    }

    // The next line without its line feed, if there is one more: how many of its first bytes were kept, as many as there is room for.
    // The last line may lack its line feed.
    pub fn next_line(
        &mut self,
        file: &mut impl Read,
        block: &mut [u8],
        line: &mut [u8],
    ) -> Option<usize> {
        let mut kept: usize = 0;
        for taken in 0..u64::MAX {
            let Some(b) = self.next_byte(file, block) else {
                return if taken == 0 { None } else { Some(kept) };
            };
            if b == b'\n' {
                break;
            }
            if kept < line.len() {
                line[kept] = b;
                kept += 1;
            }
        }
        Some(kept)
    }
}
