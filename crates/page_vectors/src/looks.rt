// Vectors that look at a page.
use crate::answers;
use crate::heads::Head;
use streams::System;

// Looks at a page, with counts of the length that the head gives.
pub fn look<R: System + Input + Print>(rt: &R, head: Head<'_>, page: &[u8]) -> bool {
    let mut counts = [165u8; 512];
    let counts = text::front_mut(&mut counts, head.length(28));
    let answer = page_look::look_page(head.edition(), head.record(), page, counts);
    answers::show_buffers(rt, answer, &[counts]);
    true
}
