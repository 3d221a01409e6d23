// The pages of two dumps, one after the other.
use crate::lines::{Format, Pair};
use crate::paging;
use compare_totals::{Failed, Run, Totals};
use layout_plan::Plan;
use say::Answer;
use std::io;
use streams::{Source, System};

// Fills the first bytes of a buffer; none where there is no file.
fn fill(source: Source<'_>, buffer: &mut [u8], size: usize) -> io::Result<usize> {
    streams::fill(source, text::front_mut(buffer, size), 0)
}

// Fills the first bytes of two buffers from the files: the bytes that are there.
pub fn fill_both<'a>(
    run: Run<'_>,
    first: &'a mut [u8],
    second: &'a mut [u8],
    size: usize,
) -> Result<Pair<'a>, Failed> {
    let n = fill(run.first, first, size).map_err(Failed::First)?;
    let m = fill(run.second, second, size).map_err(Failed::Second)?;
    Ok(Pair {
        first: text::front(first, n),
        second: text::front(second, m),
    })
}

fn progress<R: System>(rt: &R, plan: Plan, run: Run<'_>, totals: &mut Totals) {
    if !run.quiet {
        totals.shown = dump_progress::tell(
            rt,
            totals.pages,
            run.known,
            plan.size,
            run.began,
            totals.shown,
        );
    }
}

// The next page of both: whether to go on.
fn next<R: System>(
    rt: &R,
    out: &mut Answer,
    run: Run<'_>,
    format: Format<'_>,
    totals: &mut Totals,
    first: &mut [u8],
    second: &mut [u8],
) -> Result<bool, Failed> {
    if run.most <= totals.pages {
        return Ok(false);
    }
    let pages = fill_both(run, first, second, format.plan.size as usize)?;
    let ended = pages.first.is_empty() && pages.second.is_empty();
    Ok(!ended && paging::page(rt, out, run, format, totals, pages))
}

// The pages of the dumps that are left.
pub fn pages<R: System>(
    rt: &R,
    out: &mut Answer,
    run: Run<'_>,
    format: Format<'_>,
    totals: &mut Totals,
    first: &mut [u8],
    second: &mut [u8],
) -> Result<(), Failed> {
    for _ in 0..u64::MAX {
        progress(rt, format.plan, run, totals);
        if !next(rt, out, run, format, totals, first, second)? {
            break;
        }
    }
    Ok(())
}
