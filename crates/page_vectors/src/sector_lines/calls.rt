// A call that a line of words asks for.
use crate::sector_lines::{blocks, heads, pages, places};
use streams::System;

// Answers the call that the words of a line are: nothing is printed, and none is the answer, where they are none.
pub fn answer<R: System + Input + Print>(rt: &R, words: &[u8]) -> Option<()> {
    let sectors = heads::head_of(words)?;
    match vector_words::call(words, b"check|bit|position|judge|claim|write|look|take") {
        0 => Some(places::check(rt, sectors)),
        1 => places::bit(rt, sectors, words),
        2 => places::position(rt, sectors, words),
        3 => blocks::judge(rt, sectors, words),
        4 => blocks::claim(rt, sectors, words),
        5 => pages::page(
            rt,
            words,
            |read, written| sector_pages::write_page(sectors, read, written),
        ),
        6 => pages::page(
            rt,
            words,
            |read, written| sector_pages::look_page(sectors, read, written),
        ),
        7 => pages::page(
            rt,
            words,
            |read, written| sector_pages::take_page(sectors, read, written),
        ),
        _ => None,
    }
}
