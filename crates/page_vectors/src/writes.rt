// Vectors that write a page.
use crate::answers;
use crate::buffers::filled;
use crate::heads::Head;
use streams::System;

// Reads metadata and data into buffers of their lengths, and writes the page.
fn write_from<R: System + Input + Print>(
    rt: &R,
    head: Head<'_>,
    metadata: &mut [u8],
    data: &mut [u8],
) -> bool {
    if !vector_io::fill(rt, metadata) || !vector_io::fill(rt, data) {
        return false;
    }
    let mut page = filled::<65536>(165);
    let page = text::front_mut(&mut page, head.length(24));
    let answer = page_write::write_page(head.edition(), head.record(), metadata, data, page);
    answers::show_buffers(rt, answer, &[page]);
    true
}

// Writes a page: false where the input ends before its metadata and data do.
pub fn write<R: System + Input + Print>(rt: &R, head: Head<'_>) -> bool {
    let mut metadata = [0u8; 512];
    let mut data = text::buffer::<65536>();
    let m = head.length(28);
    let d = head.length(32);
    write_from(
        rt,
        head,
        text::front_mut(&mut metadata, m),
        text::front_mut(&mut data, d),
    )
}
