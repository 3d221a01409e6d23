// Vectors that compare two pages. What is printed is what the tool prints.
use crate::heads::Head;
use compare_command::{Format, Pair};
use replies::refusal_number;
use say::Answer;
use streams::System;

// Reads the pages into buffers of their lengths, and compares them: false where the input ends before them.
fn compare<R: System + Input + Print>(
    rt: &R,
    head: Head<'_>,
    first: &mut [u8],
    second: &mut [u8],
) -> bool {
    if !vector_io::fill(rt, first) || !vector_io::fill(rt, second) {
        return false;
    }
    let mut out = Answer::new();
    match Format::new(head.edition(), head.record()) {
        Ok(format) => compare_command::show(rt, &mut out, format, Pair { first, second }),
        Err(refusal) => compare_command::refused(&mut out, refusal_number(refusal)),
    }
    out.flush(rt);
    true
}

// Answers a vector: false where the input ends before its pages do.
pub fn answer<R: System + Input + Print>(rt: &R, head: Head<'_>) -> bool {
    let mut first = text::buffer::<65536>();
    let mut second = text::buffer::<65536>();
    let a = head.length(24);
    let b = head.length(28);
    compare(
        rt,
        head,
        text::front_mut(&mut first, a),
        text::front_mut(&mut second, b),
    )
}
