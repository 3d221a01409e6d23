// Numbers and bytes out of a line of the input, and lines of answers.
use std::array;
use store::Refusal;
use streams::System;

// The value of a hexadecimal digit; 0 where the character is none.
fn digit(c: u8) -> u64 {
    match c {
        b'0'..=b'9' => (c - b'0') as u64,
        b'a'..=b'f' => (c - b'a' + 10) as u64,
        _ => 0,
    }
}

// The number in `count` hexadecimal digits from place `at` on.
pub fn number(line: &[u8; 112], at: usize, count: usize) -> u64 {
    let digits = line.iter().skip(at).take(count);
    digits.fold(0u64, |v, c| v.wrapping_mul(16).wrapping_add(digit(*c)))
}

// The bytes that are handed in, in their places.
pub fn bytes_in(line: &[u8; 112]) -> [u8; 36] {
    array::from_fn(|i| (number(line, 39 + 2 * i, 2) % 256) as u8)
}

fn refusal_number(refusal: Refusal) -> u64 {
    match refusal {
        Refusal::Table(reason) => replies::refusal_number(reason) as u64,
        Refusal::Full => 12,
        Refusal::NumbersUsedUp => 13,
        Refusal::InUse => 14,
    }
}

fn verdict_number(verdict: Result<(), Refusal>) -> u64 {
    match verdict {
        Ok(()) => 0,
        Err(refusal) => refusal_number(refusal),
    }
}

// Prints the answer of a call that names a version.
pub fn show_version<R: System + Input + Print>(rt: &R, answer: Result<u16, Refusal>) {
    match answer {
        Ok(version) => vector_io::show(rt, &[0, version as u64]),
        Err(refusal) => vector_io::show(rt, &[refusal_number(refusal), 0]),
    }
}

// Prints the answer of a call that names none.
pub fn show_verdict<R: System + Input + Print>(rt: &R, verdict: Result<(), Refusal>) {
    vector_io::show(rt, &[verdict_number(verdict)]);
}

// Prints such an answer, and a buffer.
pub fn show_buffer<R: System + Input + Print>(rt: &R, verdict: Result<(), Refusal>, buffer: &[u8]) {
    let mut line = [0u8; 512];
    let mut at = vector_io::put_number(&mut line, 0, verdict_number(verdict));
    for byte in buffer {
        at = vector_io::put_number(&mut line, at, *byte as u64);
    }
    vector_io::write_line(rt, &line, at);
}
