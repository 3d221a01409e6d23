// Runs test vectors of the layout crate: each vector on standard input is one call, and its answer is one line of numbers.
//
// A vector is 40 bytes: the kind of call (`L` a layout, `P` a page bit, `B` a code bit), the length of the layout record, the edition in
// eight bytes, the record's bytes in twelve places, two bytes not used, and two numbers of eight bytes. A line starts with the reply and
// its block. An accepted layout shows its fields, sums and mark, one that breaks a rule the block kind and the two numbers compared.
#![tactic(auto)]

use layout::{BitPlace, Refusal};
use layout_plan::{Fields, Plan};

// The line of an accepted layout.
fn show_accepted<R: Input + Print>(rt: &R, reply: u64, stored: Fields, plan: Plan) {
    let first = stored.first;
    let later = stored.later;
    let mark = plan.mark;
    vector_io::show(
        rt,
        &[
            reply,
            0,
            stored.nblocks as u64,
            stored.metadata as u64,
            first.ecc as u64,
            first.gf as u64,
            first.units as u64,
            stored.page as u64,
            later.ecc as u64,
            later.gf as u64,
            later.units as u64,
            plan.first.covered as u64,
            plan.later.covered as u64,
            plan.used as u64,
            plan.data as u64,
            mark.offset as u64,
            mark.length as u64,
        ],
    );
}

// An accepted record in twelve bytes: a third word that is not there is 0.
fn fields_of(edition: u64, words: &[u8]) -> Fields {
    let mut record = [0u8; 12];
    text::put_all(&mut record, 0, words);
    layout_record::fields_of(edition, &record)
}

// The line of a refusal.
fn show_refused<R: Input + Print>(rt: &R, reply: u64, refusal: Refusal) {
    match refusal {
        Refusal::Rule(reason) => vector_io::show(
            rt,
            &[reply, 0, reason.kind as u64, reason.found, reason.limit],
        ),
        _ => vector_io::show(rt, &[reply, 0]),
    }
}

fn layout_line<R: Input + Print>(rt: &R, edition: u64, words: &[u8]) {
    let answer = layout::check_layout(edition, words);
    let reply = layout::answer_reply(answer) as u64;
    match answer {
        Ok(l) => show_accepted(
            rt,
            reply,
            fields_of(edition, words),
            layout_plan::plan_of(l),
        ),
        Err(refusal) => show_refused(rt, reply, refusal),
    }
}

// A page bit in a block shows 1, its block and its exponent; one in the tail shows 0, one in the mark 2.
fn bit_line<R: Input + Print>(rt: &R, edition: u64, words: &[u8], position: u64) {
    let answer = page_bits::locate_bit(edition, words, position);
    let reply = layout::answer_reply(answer) as u64;
    match answer {
        Ok(BitPlace::InBlock { block, exponent }) => {
            vector_io::show(rt, &[reply, 0, 1, block, exponent])
        }
        Ok(BitPlace::Tail) => vector_io::show(rt, &[reply, 0, 0]),
        Ok(BitPlace::Mark) => vector_io::show(rt, &[reply, 0, 2]),
        Err(_) => vector_io::show(rt, &[reply, 0]),
    }
}

fn position_line<R: Input + Print>(rt: &R, edition: u64, words: &[u8], block: u64, exponent: u64) {
    let answer = page_bits::bit_position(edition, words, block, exponent);
    let reply = layout::answer_reply(answer) as u64;
    match answer {
        Ok(position) => vector_io::show(rt, &[reply, 0, position]),
        Err(_) => vector_io::show(rt, &[reply, 0]),
    }
}

// Answers the vector of a head.
fn answer<R: Input + Print>(rt: &R, head: &[u8; 40]) {
    let words = text::front(&head[10..22], head[1] as usize % 13);
    let edition = vector_io::number(head, 2, 8);
    let first = vector_io::number(head, 24, 8);
    let second = vector_io::number(head, 32, 8);
    match head[0] {
        b'L' => layout_line(rt, edition, words),
        b'P' => bit_line(rt, edition, words, first),
        _ => position_line(rt, edition, words, first, second),
    }
}

// Answers the next vector: false where there is none.
fn next_vector<R: Input + Print>(rt: &R) -> bool {
    let mut head = [0u8; 40];
    let there = vector_io::fill(rt, &mut head);
    if there {
        answer(rt, &head);
    }
    there
}

fn main(rt: HostRuntime) {
    for _ in 0..1000000 {
        if !next_vector(&rt) {
            return;
        }
    }
}
