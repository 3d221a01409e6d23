// Vectors that take metadata and data out of a page.
use crate::answers;
use crate::buffers::filled;
use crate::heads::Head;
use streams::System;

// Takes a page, into buffers of the lengths that the head gives.
pub fn take<R: System + Input + Print>(rt: &R, head: Head<'_>, page: &[u8]) -> bool {
    let mut metadata = [165u8; 512];
    let metadata = text::front_mut(&mut metadata, head.length(28));
    let mut data = filled::<65536>(165);
    let data = text::front_mut(&mut data, head.length(32));
    let answer = page_take::take_page(head.edition(), head.record(), page, metadata, data);
    answers::show_buffers(rt, answer, &[metadata, data]);
    true
}
