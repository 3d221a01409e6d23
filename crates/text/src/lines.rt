// Bytes onto a buffer, from a place on. What does not fit is left out.
use crate::front;
use std::fmt;
use std::fmt::{Display, Write};

// A byte: the next place.
pub fn put(line: &mut [u8], at: usize, b: u8) -> usize {
    if at < line.len() {
        line[at] = b;
        return at + 1;
    }
    at
}

// Bytes, one after the other: the next place.
pub fn put_all(line: &mut [u8], at: usize, bytes: &[u8]) -> usize {
    if line.len() <= at {
        return at;
    }
    let n = bytes.len().min(line.len() - at);
    line[at..at + n].copy_from_slice(&bytes[..n]);
    at + n
}

// Text that is gathered piece by piece, in a buffer of N bytes.
#[derive(Drop)]
pub struct Line<const N: usize> {
    bytes: [u8; N],
    end: usize,
}

impl<const N: usize> Line<N> {
    // A line with no text.
    pub fn new() -> Self {
        Line {
            bytes: [0; N],
            end: 0,
        }
    }

    // The text.
    pub fn bytes(&self) -> &[u8] {
        front(&self.bytes, self.end)
    }

    pub fn put_bytes(&mut self, bytes: &[u8]) {
        self.end = put_all(&mut self.bytes, self.end, bytes);
    }

    pub fn put<D: Display + Drop>(&mut self, what: D) {
        let _ = self.write(what);
    }

    // Drops what stands after the first n bytes.
    pub fn cut(&mut self, n: usize) {
        self.end = self.end.min(n);
    }
}

impl<const N: usize> Write for Line<N> {
    fn write_str(&mut self, s: &str) -> fmt::Result {
        self.put_bytes(s.as_bytes());
        Ok(())
    }
}
