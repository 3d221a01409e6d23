// The commands of the tool for a remainder and a hardware locator: locate and fragments.
#![tactic(auto)]

mod fragmenting;
mod locating;

pub use fragmenting::fragments;
pub use locating::locate;
use say::Answer;
use streams::System;

// Puts the remainder that argument i has in hexadecimal digits to the front of a buffer: none where an error was printed.
fn remainder_at<'a, R: System>(
    rt: &R,
    out: &mut Answer,
    i: usize,
    remainder: &'a mut [u8],
) -> Option<&'a [u8]> {
    let mut buffer = [0u8; 258];
    let digits = arguments::given(rt, out, i, "REMAINDER", &mut buffer)?;
    match text::parse_bytes(text::without_prefix(digits), remainder) {
        Some(count) => Some(text::front(remainder, count as usize)),
        None => {
            arguments::bad_remainder(rt, out);
            None
        }
    }
}
