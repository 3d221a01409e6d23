// Vectors of a store, a sequence of calls: each line is a call, and its answer is one line.
//
// A line starts with 112 bytes: the kind of call, two numbers of 16 hexadecimal digits, how many bytes are handed in, in two hexadecimal
// digits, and 36 places of two hexadecimal digits for them, with a space between any two and one character more. Places that are not used
// have points. What the two numbers and the bytes are, and what is printed, in decimal:
//   S    stores a layout: edition; the record. Reply and version
//   R    removes a version: version. Reply
//   U    puts a version to use: chip select, version. Reply
//   V    the version in use: chip select. Reply and version
//   W    writes the versions in use: the lent buffer. Reply and every byte of the buffer after the call
//   L    loads the versions in use: the buffer. Reply
//   C    stores a layout and removes the version that is answered: edition, how many times; the record. The last answer to storing
//   E    begins with an empty store. 0
//   X    is no call, and ends the sequence
// Beside a refusal the version is 0. The character that ends them is a line feed, but in the line of a page call, which goes on with the
// buffers that are lent:
//   w    writes a page: version; metadata, data and page. Reply, block and page
//   l    looks at a page: version; page and counts. Reply, block and counts
//   t    takes a page: version; page, metadata and data. Reply, block, metadata and data
//   j    judges a block: version, block; the page. Reply, block and, beside 0, the flip count
//   c    checks a claim: version, block; page and exponents of two bytes each. Reply and block
// They are always three; those that a call does not have are empty. The bytes that are handed in are their lengths, four bytes each, at
// most 8,192, or 512 for exponents. A buffer is in hexadecimal, two digits a byte, and one character follows it, a line feed after the
// last. Buffers are printed in hexadecimal as they are after the call, refused or not, and as `-` where they are empty.
//
//   lines.rt        numbers and bytes out of a line, and lines of answers
//   page_calls.rt   the page calls, with the buffers that they are lent
mod lines;
mod page_calls;

use crate::versions::lines::{bytes_in, number, show_buffer, show_verdict, show_version};
use crate::versions::page_calls::PageCall;
use store::Store;
use streams::System;

// Stores a layout and removes its version, as many times as it is told. The last answer to storing is printed.
fn cycles<R: System + Input + Print>(
    rt: &R,
    kept: &mut Store,
    edition: u64,
    times: u64,
    record: &[u8],
) {
    let mut answer = Ok(0);
    for _ in 0..times {
        answer = kept.store_layout(edition, record);
        if let Ok(version) = answer {
            let _ = kept.remove_version(version as u64);
        }
    }
    show_version(rt, answer);
}

// The call of a line, with the bytes that it hands in. Its answer is printed.
fn call<R: System + Input + Print>(rt: &R, kept: &mut Store, line: &[u8; 112], bytes: &mut [u8]) {
    let first = number(line, 2, 16);
    let second = number(line, 19, 16);
    match line[0] {
        b'S' => show_version(rt, kept.store_layout(first, bytes)),
        b'R' => show_verdict(rt, kept.remove_version(first)),
        b'U' => show_verdict(rt, kept.use_version(first, second)),
        b'V' => show_version(rt, kept.version_in_use(first)),
        b'W' => {
            let verdict = kept.save_versions(bytes);
            show_buffer(rt, verdict, bytes);
        }
        b'L' => show_verdict(rt, kept.load_versions(bytes)),
        b'C' => cycles(rt, kept, first, second, bytes),
        b'E' => {
            *kept = Store::empty();
            show_verdict(rt, Ok(()));
        }
        letter => {
            let call = PageCall {
                letter,
                store: kept,
                version: first,
                block: second,
            };
            call.answer(rt, bytes);
        }
    }
}

// Answers the call of a line; none where it hands in more bytes than it has places.
fn answer<R: System + Input + Print>(rt: &R, kept: &mut Store, line: &[u8; 112]) {
    let mut bytes = bytes_in(line);
    let length = number(line, 36, 2) as usize;
    if length <= 36 {
        call(rt, kept, line, &mut bytes[..length]);
    }
}

// Answers the calls of the sequence: false where the input ends before the sequence does.
pub fn run<R: System + Input + Print>(rt: &R) -> bool {
    let mut kept = Store::empty();
    for _ in 0..1000000 {
        let mut line = [0u8; 112];
        if !vector_io::fill(rt, &mut line) {
            return false;
        }
        if line[0] == b'X' {
            return true;
        }
        answer(rt, &mut kept, &line);
    }
    false
}
