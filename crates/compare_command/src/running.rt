// Two files: of one page each, or two dumps of many.
use crate::lines::{Format, Pair};
use crate::{dumping, lines, paging};
use compare_totals::{Failed, Run, Totals};
use say::Answer;
use std::io;
use streams::{Source, System};

// How much of a file is read before it is known whether it is a dump, which has at least two pages. One whose pages are too large to be compared
// is none.
fn probe(size: u16) -> usize {
    if 16384 < size {
        return size as usize + 1;
    }
    2 * size as usize
}

fn is_dump(size: u16, n: usize) -> bool {
    size <= 16384 && n == 2 * size as usize
}

// The first two pages of two dumps: whether to go on.
fn first_two<R: System>(
    rt: &R,
    out: &mut Answer,
    run: Run<'_>,
    format: Format<'_>,
    totals: &mut Totals,
    read: Pair<'_>,
) -> bool {
    let size = format.plan.size as usize;
    let (a, c) = halves(read.first, size);
    let (b, d) = halves(read.second, size);
    paging::page(
        rt,
        out,
        run,
        format,
        totals,
        Pair {
            first: a,
            second: b,
        },
    ) && paging::page(
        rt,
        out,
        run,
        format,
        totals,
        Pair {
            first: c,
            second: d,
        },
    )
}

// The first n bytes, and what stands after them.
fn halves(bytes: &[u8], n: usize) -> (&[u8], &[u8]) {
    bytes.split_at(bytes.len().min(n))
}

// Two files: dumps, or as many bytes of pages as there are.
fn whole<R: System>(
    rt: &R,
    out: &mut Answer,
    run: Run<'_>,
    format: Format<'_>,
    first: &mut [u8],
    second: &mut [u8],
) -> Result<(), Failed> {
    let size = format.plan.size;
    let read = dumping::fill_both(run, first, second, probe(size))?;
    if !is_dump(size, read.first.len()) || !is_dump(size, read.second.len()) {
        lines::show(rt, out, format, read);
        return Ok(());
    }
    let mut totals = Totals::start(run.began);
    let mut ended = Ok(());
    if first_two(rt, out, run, format, &mut totals, read) {
        ended = dumping::pages(rt, out, run, format, &mut totals, first, second);
    }
    totals.summary(out);
    ended
}

// Passes over the pages before the first that is asked for: whether there are so many and more.
fn pass<R: System>(
    rt: &R,
    run: Run<'_>,
    size: u16,
    source: Source<'_>,
    page: &mut [u8],
) -> io::Result<bool> {
    if let Source::Nothing = source {
        return Ok(true);
    }
    files::pass(
        rt,
        source,
        text::front_mut(page, size as usize),
        size,
        run.from,
    )
}

// Passes over the pages of both dumps before the first that is asked for: whether there are so many and more.
fn pass_both<R: System>(
    rt: &R,
    run: Run<'_>,
    size: u16,
    first: &mut [u8],
    second: &mut [u8],
) -> Result<bool, Failed> {
    Ok(
        pass(rt, run, size, run.first, first).map_err(Failed::First)?
            && pass(rt, run, size, run.second, second).map_err(Failed::Second)?,
    )
}

// The pages of dumps that the options ask for, and the maps of all.
fn range<R: System>(
    rt: &R,
    out: &mut Answer,
    run: Run<'_>,
    format: Format<'_>,
    first: &mut [u8],
    second: &mut [u8],
) -> Result<(), Failed> {
    if !pass_both(rt, run, format.plan.size, first, second)? {
        out.error(rt, "a dump has no such page");
        return Ok(());
    }
    let mut totals = Totals::start(run.began);
    let ended = dumping::pages(rt, out, run, format, &mut totals, first, second);
    if !run.map {
        totals.summary(out);
    }
    ended
}

// Compares the files of a run: as dumps where `dump` says so, else as they turn out to be.
pub fn compare_files<R: System>(
    rt: &R,
    out: &mut Answer,
    run: Run<'_>,
    format: Format<'_>,
    dump: bool,
) -> Result<(), Failed> {
    let mut first = text::buffer::<65536>();
    let mut second = text::buffer::<65536>();
    if dump {
        return range(rt, out, run, format, &mut first, &mut second);
    }
    whole(rt, out, run, format, &mut first, &mut second)
}
