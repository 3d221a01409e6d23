// Numbers among the arguments.
use crate::choices::Options;
use crate::given;
use say::Answer;
use std::ops::Range;
use streams::System;

// The words of a layout, each of 32 bits, and the edition that they are read by. The third word has the mark; where it is 0 there is none.
#[derive(Clone, Copy)]
pub struct LayoutWords {
    pub edition: u64,
    pub first: u32,
    pub second: u32,
    pub third: u32,
}

impl LayoutWords {
    // The layout record of these words.
    pub fn record(&self) -> [u8; 12] {
        text::layout_record(self.first, self.second, self.third)
    }
}

// A number: none where the argument is none, and an error was printed.
pub fn number<R: System>(rt: &R, out: &mut Answer, i: usize, name: &str) -> Option<u64> {
    let mut buffer = text::buffer::<4096>();
    let digits = given(rt, out, i, name, &mut buffer)?;
    let found = text::parse_number(digits);
    if found.is_none() {
        out.bad_argument(
            rt,
            name,
            digits,
            "is no number (decimal, or hexadecimal after 0x) of at most 64 bits",
        );
    }
    found
}

// A number of at most `most`, which is that of a word or the largest of all: none where the argument is none, and an error was printed.
pub fn at_most<R: System>(
    rt: &R,
    out: &mut Answer,
    i: usize,
    name: &str,
    most: u64,
) -> Option<u64> {
    let v = number(rt, out, i, name)?;
    if most < v {
        out.error(rt, "a word has 32 bits, at most 0xFFFFFFFF");
        return None;
    }
    Some(v)
}

// The largest word of 32 bits.
pub const WORD: u64 = 4294967295;

// Puts the arguments of a range to the front of the list, as many as it has places, until one is no number of at most `most`: then an
// error is printed. A number of more than 32 bits is put as the largest of 32. Says whether all are numbers.
pub fn word_list<R: System>(
    rt: &R,
    out: &mut Answer,
    range: Range<usize>,
    name: &str,
    most: u64,
    list: &mut [u32],
) -> bool {
    for i in range.start..range.end {
        let Some(v) = at_most(rt, out, i, name, most) else {
            return false;
        };
        if let Some(word) = list.get_mut(i - range.start) {
            *word = u32::try_from(v).unwrap_or(u32::MAX);
        }
    }
    true
}

// An error about a remainder that cannot be read.
pub fn bad_remainder<R: System>(rt: &R, out: &mut Answer) {
    out.error(
        rt,
        "REMAINDER is an even number of hexadecimal digits, at most 256, highest coefficient first",
    );
}

// A word of 32 bits: none where the argument is none, and an error was printed.
fn word<R: System>(rt: &R, out: &mut Answer, i: usize, name: &str) -> Option<u32> {
    u32::try_from(at_most(rt, out, i, name, WORD)?).ok()
}

impl Options {
    // The words of a layout: the two arguments after the options, the third by the option --mark and the edition by --edition. None where
    // an error was printed.
    pub fn layout_words<R: System>(&self, rt: &R, out: &mut Answer) -> Option<LayoutWords> {
        Some(LayoutWords {
            first: word(rt, out, self.at, "WORD0")?,
            second: word(rt, out, self.place(1), "WORD1")?,
            third: self.mark(),
            edition: self.edition(),
        })
    }
}
