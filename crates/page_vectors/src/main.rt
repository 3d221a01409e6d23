// Runs test vectors of the page calls (write, look, take, judge, claim), of comparisons, of a store and of pages of sectors: each vector on
// standard input is one call.
//
// A vector is a head of 40 bytes and then a body. The head: the kind of call, the length of the layout record, the edition in eight bytes,
// the record's bytes in twelve places, two bytes not used, the length of the page in four bytes, and twelve bytes that depend on the kind:
//
//   W   writes a page: the lengths of metadata and data; the body is the metadata and the data
//   L   looks at a page: the length of the counts; the body is the page
//   T   takes a page: the lengths of metadata and data; the body is the page
//   J   judges a block: four bytes not used, the block in eight bytes; the body is the page
//   C   checks a claim: how many exponents, the block in eight bytes; the body is the page and the exponents of two bytes each
//   R   compares two pages: the length of the second; the body is the pages
//   V   is no call: the lines of a store follow it, up to one that ends them (versions.rt)
//   K   is no call: the lines about pages of sectors follow it, up to the end of the input (sector_lines.rt)
//
// A length has four bytes, and the bytes of the twelve that are not named are not used. Each byte that a call may write is 165 before it.
// Of `R` what the tool prints is printed. The answer to any other is a line, which shows the reply and its block, and then after `W` the page,
// after `L` the counts, after `T` metadata and data (in hexadecimal, refused or not), and after `J` the flip count of a block that has one.
#![tactic(auto)]

mod answers;
mod buffers;
mod claims;
mod compares;
mod heads;
mod judges;
mod looks;
mod sector_lines;
mod takes;
mod versions;
mod writes;

use crate::heads::Head;
use streams::System;

// Makes a call on the page of a vector: false where the input ends before the body does.
fn call<R: System + Input + Print>(rt: &R, head: Head<'_>, page: &[u8]) -> bool {
    match head.kind() {
        b'L' => looks::look(rt, head, page),
        b'T' => takes::take(rt, head, page),
        b'J' => judges::judge(rt, head, page),
        _ => claims::claim(rt, head, page),
    }
}

// Reads the page of a vector, and makes the call.
fn call_on_page<R: System + Input + Print>(rt: &R, head: Head<'_>) -> bool {
    let mut page = text::buffer::<65536>();
    let page = text::front_mut(&mut page, head.length(24));
    vector_io::fill(rt, page) && call(rt, head, page)
}

// Answers the vector of a head: false where the input ends before it, and where it has the other vectors.
fn answer<R: System + Input + Print>(rt: &R, head: Head<'_>) -> bool {
    match head.kind() {
        b'W' => writes::write(rt, head),
        b'R' => compares::answer(rt, head),
        b'V' => versions::run(rt),
        b'K' => {
            sector_lines::run(rt);
            false
        }
        _ => call_on_page(rt, head),
    }
}

// Answers the next vector: false where there is none.
fn next_vector<R: System + Input + Print>(rt: &R) -> bool {
    let mut head = [0u8; 40];
    vector_io::fill(rt, &mut head) && answer(rt, Head { bytes: &head })
}

fn main(rt: HostRuntime) {
    for _ in 0..1000000 {
        if !next_vector(&rt) {
            return;
        }
    }
}
