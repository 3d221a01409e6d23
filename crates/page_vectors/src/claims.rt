// Vectors that check claimed error locations.
use crate::heads::Head;
use crate::{answers, buffers};
use streams::System;

// Checks a claim, whose exponents follow the page: false where the input ends before them.
pub fn claim<R: System + Input + Print>(rt: &R, head: Head<'_>, page: &[u8]) -> bool {
    let mut bytes = [0u8; 512];
    let count = head.length(28);
    if !vector_io::fill(rt, text::front_mut(&mut bytes, count % 65536 * 2)) {
        return false;
    }
    let exponents = buffers::exponents(&bytes);
    let answer = page_claim::check_claim(
        head.edition(),
        head.record(),
        page,
        head.block(),
        text::front(&exponents, count),
    );
    answers::show_claim(rt, answer);
    true
}
