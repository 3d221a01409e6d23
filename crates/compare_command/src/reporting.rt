// The report of two pages.
use crate::lines::{Counts, Format, Pair};
use say::Answer;
use streams::System;

// The flips of a block; a dash where they are not known.
fn put_flips(out: &mut Answer, flips: Option<u8>) {
    match flips {
        Some(n) => out.put(format_args!(" {n}")),
        None => out.put(" -"),
    }
}

// How the flips of a block changed, with its sign; a dash where that is not known.
fn put_change(out: &mut Answer, change: Option<i16>) {
    match change {
        Some(n) => {
            let sign = if n < 0 { "-" } else { "" };
            out.put(format_args!(" {sign}{}", changes::magnitude(n)));
        }
        None => out.put(" -"),
    }
}

// The line of a block, by its counts in the two pages.
fn line(out: &mut Answer, block: usize, first: u8, second: u8) {
    let shown = changes::block_line(first, second);
    out.put(block);
    put_flips(out, shown.first);
    put_flips(out, shown.second);
    put_change(out, shown.change);
    out.put("\n");
}

// Each position at which the pages differ.
fn positions<R: System>(rt: &R, out: &mut Answer, format: Format<'_>, pages: Pair<'_>) {
    let mut from = 0;
    for _ in 0..262144 {
        let Ok(Some(p)) = format.next_difference(pages, from) else {
            break;
        };
        out.put(format_args!("{p}\n"));
        if p % 64 == 0 {
            out.flush(rt);
        }
        from = p.saturating_add(1);
    }
}

// The report: a line a block by the counts of both pages, and then each position at which the pages differ.
pub fn report<R: System>(
    rt: &R,
    out: &mut Answer,
    format: Format<'_>,
    pages: Pair<'_>,
    counts: &Counts,
) {
    out.put("block first second change\n");
    let both = format.blocks(&counts.first).iter().zip(&counts.second);
    for (block, (first, second)) in both.enumerate() {
        line(out, block, *first, *second);
    }
    out.flush(rt);
    positions(rt, out, format, pages);
    out.flush(rt);
}
