// The command fragments: export and import.
use crate::remainder_at;
use replies::{Refusal, refusal_number};
use say::Answer;
use streams::System;

// Bytes in hexadecimal.
fn hex(out: &mut Answer, bytes: &[u8]) {
    for b in bytes {
        out.put_bytes(&text::hex_byte(*b));
    }
}

fn exported(out: &mut Answer, list: &[u32]) {
    out.put("reply 0: fragments");
    for x in list {
        out.put(" 0x");
        hex(out, &x.to_be_bytes());
    }
    out.put("\n");
}

fn imported(out: &mut Answer, remainder: &[u8]) {
    out.put("reply 0: remainder ");
    hex(out, remainder);
    out.put("\n");
}

fn refused(out: &mut Answer, refusal: Refusal) {
    out.reply(refusal_number(refusal));
    match refusal {
        Refusal::LevelTooHigh => out.put(
            "the locator has the level fields 2, 4 and 8, for t = 4, 8 and 16\n",
        ),
        Refusal::BufferLength => out.put(
            "a remainder has 7, 13 or 26 bytes at these levels, and there are seven fragments\n",
        ),
        _ => out.put(
            "there is a one above bit mt - 1; the start bit, bit 16 of fragment 6, is one of these\n",
        ),
    }
}

fn export_from(out: &mut Answer, level: u64, remainder: &[u8]) {
    let mut list = [0u32; 7];
    match fragments::export_fragments(level, remainder, &mut list) {
        Ok(()) => exported(out, &list),
        Err(refusal) => refused(out, refusal),
    }
}

// nandpage fragments export LEVEL REMAINDER
fn export<R: System>(rt: &R, out: &mut Answer, at: usize) {
    if !arguments::are(
        rt,
        out,
        at,
        2,
        "usage: nandpage fragments export LEVEL REMAINDER",
    ) {
        return;
    }
    let Some(level) = arguments::number(rt, out, at, "LEVEL") else {
        return;
    };
    let mut buffer = [0u8; 128];
    if let Some(remainder) = remainder_at(rt, out, arguments::place(at, 1), &mut buffer) {
        export_from(out, level, remainder);
    }
}

// The bytes of a remainder at a level field: as many as it has where the locator has the level.
fn bytes_for(level: u64) -> usize {
    match level {
        2 => 7,
        4 => 13,
        _ => 26,
    }
}

fn import_into(out: &mut Answer, level: u64, list: &[u32], remainder: &mut [u8]) {
    match fragments::import_fragments(level, list, remainder) {
        Ok(()) => imported(out, remainder),
        Err(refusal) => refused(out, refusal),
    }
}

// The list is as long as the words that are given, and 16 stand for all that are more.
fn import_of<R: System>(rt: &R, out: &mut Answer, level: u64, first: usize, end: usize) {
    let mut list = [0u32; 16];
    if !arguments::word_list(rt, out, first..end, "FRAGMENT", arguments::WORD, &mut list) {
        return;
    }
    let mut remainder = [0u8; 26];
    if first <= end {
        import_into(
            out,
            level,
            text::front(&list, end - first),
            text::front_mut(&mut remainder, bytes_for(level)),
        );
    }
}

// nandpage fragments import LEVEL FRAGMENT..
fn import<R: System>(rt: &R, out: &mut Answer, at: usize) {
    let count = arguments::count(rt);
    let first = arguments::place(at, 1);
    if count <= first {
        usage(rt, out);
    } else if let Some(level) = arguments::number(rt, out, at, "LEVEL") {
        import_of(rt, out, level, first, count);
    }
}

fn usage<R: System>(rt: &R, out: &mut Answer) {
    out.error(
        rt,
        "usage: nandpage fragments export LEVEL REMAINDER, or nandpage fragments import LEVEL FRAGMENT..",
    );
}

// nandpage fragments export .. or import ..
#[inline(never)]
pub fn fragments<R: System>(rt: &R, out: &mut Answer) {
    let Some(options) = arguments::find_options(rt, out, &[]) else {
        return;
    };
    let mut name = [0u8; 16];
    let at = options.place(1);
    match arguments::argument(rt, options.at, &mut name) {
        b"export" => export(rt, out, at),
        b"import" => import(rt, out, at),
        _ => usage(rt, out),
    }
}
