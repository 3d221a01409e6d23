// What the programs that run test vectors share: vectors are read from standard input in parts of a known length, numbers
// are read out of them most significant byte first, and each answer is one line of decimal numbers on standard output.
//
//   fill             the next bytes of the input
//   byte, number     a byte and a number of a vector
//   put, put_number  a byte and a number onto a line
//   put_numbers      several
//   write_line       the line, ended
//   show             a line of numbers
//
// No function asks anything of its caller: what lies outside a slice reads as 0, and what does not fit a line is left out.
// What is read is proved; what is written is compared by running the programs.
#![tactic(auto)]

ghost use Rattle.std.specs.Prelude.{◌≡◌, ◌+◌, get_or};
ghost use Rattle.vector_io.specs.Number.{number_at};

use std::io::Read;
use text::Line;
pub use text::{put, put_all};

// Fills the buffer from standard input: false where the input ends before it is full.
pub fn fill<R: Input>(rt: &R, buf: &mut [u8]) -> bool {
    let mut input = rt.reader();
    input.read_exact(buf).is_ok()
}

// The byte at place `at + i`.
pub fn byte(bytes: &[u8], at: usize, i: usize) -> u8
    ensures { result ≡ get_or bytes.now (at + i) 0 }
{
    if bytes.len() <= at {
        return 0;
    }
    if bytes.len() - at <= i {
        return 0;
    }
    bytes[at + i]
}

// The number in `count` bytes from place `at` on; of more than eight bytes the last eight.
#[tactic(auto, unfolding(crate::specs::Number::number_at))]
pub fn number(bytes: &[u8], at: usize, count: usize) -> u64
    ensures { result ≡ number_at bytes.now at count }
{
    let mut v: u64 = 0;
    for i in 0..count {
        v = v % 72057594037927936 * 256 + byte(bytes, at, i) as u64;
    }
    v
}

// A space onto the line, where something stands before it.
fn put_gap(line: &mut [u8], at: usize) -> usize {
    if 0 < at {
        return put(line, at, b' ');
    }
    at
}

// A number in decimal onto the line, after a space where it is not the first.
pub fn put_number(line: &mut [u8], at: usize, n: u64) -> usize {
    let p = put_gap(line, at);
    let mut digits = Line::<20>::new();
    digits.put(n);
    put_all(line, p, digits.bytes())
}

// Numbers onto the line.
pub fn put_numbers(line: &mut [u8], at: usize, numbers: &[u64]) -> usize {
    let mut p = at;
    for n in numbers {
        p = put_number(line, p, *n);
    }
    p
}

// Writes the line, of which `at` is the next place, and ends it.
pub fn write_line<R: Print>(rt: &R, line: &[u8], at: usize) {
    if at <= line.len() {
        let _ = rt.write_all(&line[..at]);
    }
    let _ = rt.write_all(b"\n");
}

// Writes a line of numbers.
pub fn show<R: Print>(rt: &R, numbers: &[u64]) {
    let mut line = [0u8; 512];
    let at = put_numbers(&mut line, 0, numbers);
    write_line(rt, &line, at);
}
