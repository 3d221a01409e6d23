// The page calls by version, with the buffers that they are lent. Each prints its answer.
use crate::{answers, buffers};
use store::Store;
use streams::System;

// A page call: its letter, the store that has the version of its layout, and the block that it is about.
#[derive(Clone, Copy)]
pub struct PageCall<'a> {
    pub letter: u8,
    pub store: &'a Store,
    pub version: u64,
    pub block: u64,
}

// The length in four bytes from place `at` on.
fn length(lengths: &[u8], at: usize) -> usize {
    vector_io::number(lengths, at, 4) as usize
}

// Fills the buffer from its digits and the character after them: none where the input is none.
fn read_buffer<R: System + Input + Print>(rt: &R, out: &mut [u8]) -> Option<()> {
    let mut digits = [0u8; 16384];
    let digits = text::front_mut(&mut digits, out.len().saturating_mul(2));
    if !vector_io::fill(rt, digits) {
        return None;
    }
    text::parse_bytes(digits, out)?;
    vector_io::fill(rt, &mut [0u8; 1]).then_some(())
}

impl PageCall<'_> {
    // Makes the call, where there is such a call, with the buffers that it is lent.
    fn make<R: System + Input + Print>(
        self,
        rt: &R,
        first: &[u8],
        second: &mut [u8],
        third: &mut [u8],
    ) {
        let PageCall {
            letter,
            store,
            version,
            block,
        } = self;
        match letter {
            b'w' => {
                let answer = store_pages::write_version(store, version, first, second, third);
                answers::show_buffers(rt, answer, &[third]);
            }
            b'l' => {
                let answer = store_pages::look_version(store, version, first, second);
                answers::show_buffers(rt, answer, &[second]);
            }
            b't' => {
                let answer = store_pages::take_version(store, version, first, second, third);
                answers::show_buffers(rt, answer, &[second, third]);
            }
            b'j' => answers::show_judge(
                rt,
                store_pages::judge_version(store, version, first, block),
            ),
            b'c' => {
                let exponents = buffers::exponents(second);
                let claims = text::front(&exponents, second.len() / 2);
                let answer = store_pages::claim_version(store, version, first, block, claims);
                answers::show_claim(rt, answer);
            }
            _ => vector_io::write_line(rt, b"", 0),
        }
    }

    // Reads three buffers, and makes the call: none where the input ends before they do.
    fn read<R: System + Input + Print>(
        self,
        rt: &R,
        first: &mut [u8],
        second: &mut [u8],
        third: &mut [u8],
    ) -> Option<()> {
        read_buffer(rt, first)?;
        read_buffer(rt, second)?;
        read_buffer(rt, third)?;
        self.make(rt, first, second, third);
        Some(())
    }

    // Answers the call, whose buffers have these lengths. The line is empty where there is no such call or the input ends before they do.
    pub fn answer<R: System + Input + Print>(self, rt: &R, lengths: &[u8]) {
        let mut first = [0u8; 8192];
        let mut second = [0u8; 8192];
        let mut third = [0u8; 8192];
        let first = text::front_mut(&mut first, length(lengths, 0));
        let second = text::front_mut(&mut second, length(lengths, 4));
        let third = text::front_mut(&mut third, length(lengths, 8));
        if self.read(rt, first, second, third).is_none() {
            vector_io::write_line(rt, b"", 0);
        }
    }
}
