// Vectors that judge one block of a page.
use crate::answers;
use crate::heads::Head;
use streams::System;

// Judges a block.
pub fn judge<R: System + Input + Print>(rt: &R, head: Head<'_>, page: &[u8]) -> bool {
    let answer = page_judge::judge_block(head.edition(), head.record(), page, head.block());
    answers::show_judge(rt, answer);
    true
}
