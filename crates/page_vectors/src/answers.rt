// The lines that show the answers of calls: a reply and its block, and what the call gives.
use crate::buffers::{filled, put_buffer};
use replies::{Refusal, refusal_block, refusal_number};
use streams::System;

// The reply of a refusal, and its block.
fn numbers(refusal: Refusal) -> [u64; 2] {
    [
        refusal_number(refusal) as u64,
        refusal_block(refusal) as u64,
    ]
}

fn reply(answer: Result<(), Refusal>) -> [u64; 2] {
    match answer {
        Ok(()) => [0, 0],
        Err(refusal) => numbers(refusal),
    }
}

// The line of a judgement: the reply, and the flip count where there is one.
pub fn show_judge<R: System + Input + Print>(rt: &R, answer: Result<u8, Refusal>) {
    match answer {
        Ok(flips) => vector_io::show(rt, &[0, 0, flips as u64]),
        Err(refusal) => vector_io::show(rt, &numbers(refusal)),
    }
}

// The line of a claim.
pub fn show_claim<R: System + Input + Print>(rt: &R, answer: Result<(), Refusal>) {
    vector_io::show(rt, &reply(answer));
}

// A line of a reply and of the buffers that the call may write.
pub fn show_buffers<R: System + Input + Print>(
    rt: &R,
    answer: Result<(), Refusal>,
    buffers: &[&[u8]],
) {
    let mut line = filled::<131200>(0);
    let mut at = vector_io::put_numbers(&mut line, 0, &reply(answer));
    for bytes in buffers {
        at = put_buffer(&mut line, at, bytes);
    }
    vector_io::write_line(rt, &line, at);
}
