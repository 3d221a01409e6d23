// Vectors of pages of sectors (document 02, E12): each line is one call, and its answer is one line.
//
// A line is words with one space between them: the name of the call, the six numbers of the layout (sector count, sector size, last sector
// size, level field, field choice, PAGE_SIZE), the edition, and then, by the name:
//
//   check                            is the layout accepted?
//   bit       POSITION               where a page bit belongs
//   position  BLOCK EXPONENT         where a code bit lies
//   write     DATA PAGE              writes a page from the data of its sectors
//   look      PAGE COUNTS            looks at a page
//   take      PAGE DATA              takes the data out of a page
//   judge     PAGE BLOCK             judges a sector
//   claim     PAGE BLOCK EXPONENTS   checks claimed error locations of a sector
//
// A number is decimal, or hexadecimal after 0x: those of the layout have 16 bits, the others 64. PAGE, DATA and COUNTS are buffers as they
// are lent, of at most 65,536 bytes, in hexadecimal, two digits a byte. EXPONENTS has four digits each and at most 256 of them. A buffer
// that is empty is `-`. A line has at most 262,399 characters, and words after those named are not looked at.
//
// The answer starts with the reply and its block. Then, where the reply is 0, come the values: of `bit` 0, block and exponent, or 1 for
// the tail; of `position` the position; of `judge` the flip count. Last comes, refused or not, the buffer that the call may write to, as it
// is afterwards: the page of `write`, the counts of `look`, the data of `take`. A line that is no call is answered by `?`.
//
//   heads.rt    the words that every call has
//   places.rt   calls about a layout and its bits
//   pages.rt    calls about a whole page
//   blocks.rt   calls about one sector
//   calls.rt    a call by its name
mod blocks;
mod calls;
mod heads;
mod pages;
mod places;

use std::io::Read;
use streams::System;

// Answers a line of the input.
fn answer_line<R: System + Input + Print>(rt: &R, words: &[u8]) {
    if calls::answer(rt, words).is_none() {
        vector_io::write_line(rt, b"?", 1);
    }
}

// What there is of a line so far: the first bytes of a buffer.
#[derive(Drop)]
struct Line {
    buffer: [u8; 262400],
    end: usize,
}

impl Line {
    // Answers the line; one that fills the buffer may be cut short, and is no call.
    fn answer<R: System + Input + Print>(&mut self, rt: &R) {
        if self.end < self.buffer.len() {
            answer_line(rt, text::front(&self.buffer, self.end));
        } else {
            answer_line(rt, b"");
        }
        self.end = 0;
    }

    // One character of the input.
    fn feed<R: System + Input + Print>(&mut self, rt: &R, c: u8) {
        if c == b'\n' {
            self.answer(rt);
        } else {
            self.end = vector_io::put(&mut self.buffer, self.end, c);
        }
    }
}

// Answers every line; the last need not be ended.
fn run_lines<R: System + Input + Print>(rt: &R, chunk: &mut [u8], line: &mut Line) {
    let mut input = rt.reader();
    for _ in 0..u64::MAX {
        let n = input.read(chunk).unwrap_or(0);
        if n == 0 {
            break;
        }
        for c in text::front(chunk, n) {
            line.feed(rt, *c);
        }
    }
    if 0 < line.end {
        line.answer(rt);
    }
}

// Answers the lines up to the end of the input.
pub fn run<R: System + Input + Print>(rt: &R) {
    let mut chunk = text::buffer::<65536>();
    let mut line = Line {
        buffer: [0; 262400],
        end: 0,
    };
    run_lines(rt, &mut chunk, &mut line);
}
