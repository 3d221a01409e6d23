// How far a run over a dump of many pages is: a line on standard error every two seconds.
//
//   seconds    the time
//   known      how many pages there are
//   tell       the line, where it is time for one
#![tactic(auto)]

use say::Answer;
use streams::System;

// The time in seconds.
pub fn seconds<R: System>(rt: &R) -> u64 {
    match rt.since_1970() {
        Ok(now) => now.as_secs(),
        Err(_) => 0,
    }
}

// How many pages a run has, where that is known: those of a file, of which so many are left, from page `from` on, and no more than `most`.
pub fn known(left: Option<u64>, from: u64, most: u64) -> Option<u64> {
    let pages = left?.saturating_sub(from).min(most);
    if pages == 0 { None } else { Some(pages) }
}

// Part of a whole in hundredths.
fn percent(part: u64, whole: u64) -> u64 {
    text::times(part, 100).checked_div(whole).unwrap_or(0)
}

// Bytes a second, in millions.
fn rate(bytes: u64, seconds: u64) -> u64 {
    bytes.checked_div(seconds).unwrap_or(0) / 1000000
}

fn show<R: System>(rt: &R, pages: u64, known: Option<u64>, size: u16, elapsed: u64) {
    let mut line = Answer::new();
    line.to_stderr();
    let speed = rate(text::times(pages, size as u32), elapsed);
    match known {
        Some(all) => line.put(format_args!(
            "nandpage: {pages} pages, {} %, {speed} MB/s\n",
            percent(pages, all),
        )),
        None => line.put(format_args!("nandpage: {pages} pages, {speed} MB/s\n")),
    }
    line.flush(rt);
}

// Shows how many pages of `size` bytes are done, and of how many where that is known, where two seconds went by since that was last shown. Says
// when it was.
pub fn tell<R: System>(
    rt: &R,
    pages: u64,
    known: Option<u64>,
    size: u16,
    began: u64,
    shown: u64,
) -> u64 {
    let now = seconds(rt);
    if now.saturating_sub(shown) < 2 {
        return shown;
    }
    show(rt, pages, known, size, now.saturating_sub(began));
    now
}
