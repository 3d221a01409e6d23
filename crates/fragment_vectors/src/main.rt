// Runs test vectors of the crates fragments and bch: each vector on standard input is a call, and its answer is one line of numbers.
//
// A vector is a head of 32 bytes, then a remainder and then fragments of four bytes each, most significant byte first. The head: the kind,
// the remainder's length in bytes, the number of fragments, the number of places of a lent list, four bytes not used, level field and n of
// eight bytes each, eight bytes not used. What a call writes holds what the vector gives before the call, each place of the list 42405.
//   X    exports the remainder: reply and every fragment after the call
//   M    imports the fragments: reply and every byte of the remainder after the call
//   L    imports the fragments, and locates the errors behind the remainder in a word of n bits: reply, and then the reply of locating,
//        the size of the set where there is one, and every place of the list after the call
//   E    locates the errors behind the remainder (locates.rt): reply, its block, the size of the set where there is one, and every place of
//        the list after the call
// The head of `E` has 40 bytes: the remainder's length, the number of places, five bytes not used, and edition, level field, field choice
// and n of eight bytes each. The vector has no fragments.
#![tactic(auto)]

mod locates;

use fragments::answers::fragments_reply;
use replies::Refusal;

// Writes a line of numbers and of the items of a list.
fn show<R: Input + Print, T: Copy + Into<u64>>(rt: &R, numbers: &[u64], items: &[T]) {
    let mut line = [0u8; 512];
    let mut at = vector_io::put_numbers(&mut line, 0, numbers);
    for item in items {
        at = vector_io::put_number(&mut line, at, (*item).into());
    }
    vector_io::write_line(rt, &line, at);
}

// A line of two numbers, the size of the set that was located, where there is one, and the places of a list.
fn show_located<R: Input + Print>(
    rt: &R,
    first: u8,
    second: u8,
    answer: Result<usize, Refusal>,
    places: &[u16],
) {
    match answer {
        Ok(size) => show(rt, &[first as u64, second as u64, size as u64], places),
        Err(_) => show(rt, &[first as u64, second as u64], places),
    }
}

// The first n items, to be written; all where there are no more.
fn front_mut<T>(items: &mut [T], n: usize) -> &mut [T] {
    if items.len() <= n {
        return items;
    }
    &mut items[..n]
}

fn export<R: Input + Print>(rt: &R, level_field: u64, remainder: &[u8], fragments: &mut [u32]) {
    let reply = fragments_reply(fragments::export_fragments(level_field, remainder, fragments));
    show(rt, &[reply as u64], fragments);
}

fn import<R: Input + Print>(rt: &R, level_field: u64, fragments: &[u32], remainder: &mut [u8]) {
    let reply = fragments_reply(fragments::import_fragments(level_field, fragments, remainder));
    show(rt, &[reply as u64], remainder);
}

fn locate<R: Input + Print>(
    rt: &R,
    level_field: u64,
    n: u64,
    fragments: &[u32],
    remainder: &mut [u8],
    places: &mut [u16],
) {
    let reply = fragments_reply(fragments::import_fragments(level_field, fragments, remainder));
    let located = bch::locate_errors(1, level_field, 0, n, remainder, places);
    show_located(
        rt,
        reply,
        bch::answers::locate_reply(located),
        located,
        places,
    );
}

// Answers a vector by its kind.
fn answer<R: Input + Print>(
    rt: &R,
    head: &[u8; 32],
    remainder: &mut [u8],
    fragments: &mut [u32],
    places: &mut [u16],
) {
    let level_field = vector_io::number(head, 8, 8);
    let n = vector_io::number(head, 16, 8);
    match head[0] {
        b'X' => export(rt, level_field, remainder, fragments),
        b'M' => import(rt, level_field, fragments, remainder),
        b'L' => locate(rt, level_field, n, fragments, remainder, places),
        _ => vector_io::write_line(rt, b"", 0),
    }
}

// Sixteen fragments.
fn fragments_in(bytes: &[u8; 64]) -> [u32; 16] {
    let mut fragments = [0u32; 16];
    for (fragment, word) in fragments.iter_mut().zip(bytes.as_chunks::<4>().0) {
        *fragment = u32::from_be_bytes(*word);
    }
    fragments
}

// Reads the remainder and the fragments that follow a head, and answers: false where the input ends before.
fn next_body<R: Input + Print>(
    rt: &R,
    head: &[u8; 32],
    remainder: &mut [u8],
    count: u8,
    places: &mut [u16],
) -> bool {
    let mut bytes = [0u8; 64];
    if !vector_io::fill(rt, remainder)
        || !vector_io::fill(rt, text::front_mut(&mut bytes, 4 * count as usize))
    {
        return false;
    }
    let mut fragments = fragments_in(&bytes);
    answer(
        rt,
        head,
        remainder,
        front_mut(&mut fragments, count as usize),
        places,
    );
    true
}

// Answers the vector of a head that is none of `E`, with the lengths that it gives: false where the input ends before it.
fn next<R: Input + Print>(rt: &R, head: &[u8; 32]) -> bool {
    let [_, length, count, size, ..] = *head;
    if 40 < length || 16 < count || 16 < size {
        return false;
    }
    let mut remainder = [0u8; 40];
    let mut places = [42405u16; 16];
    next_body(
        rt,
        head,
        text::front_mut(&mut remainder, length as usize),
        count,
        front_mut(&mut places, size as usize),
    )
}

// Answers the next vector: false where there is none.
fn next_vector<R: Input + Print>(rt: &R) -> bool {
    let mut head = [0u8; 32];
    if !vector_io::fill(rt, &mut head) {
        return false;
    }
    if head[0] == b'E' {
        return locates::next(rt, &head);
    }
    next(rt, &head)
}

fn main(rt: HostRuntime) {
    for _ in 0..1000000 {
        if !next_vector(&rt) {
            return;
        }
    }
}
