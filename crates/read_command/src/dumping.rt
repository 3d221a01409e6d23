// A dump of many pages, read page by page. The outputs hold the metadata and the data of all pages, one after the other;
// the place of a page that is refused holds bytes 0xFF, so that every other page keeps its place.
use crate::{lines, reading, saving};
use read_totals::{Failed, Run, Sums, Totals};
use replies::Refusal;
use say::Answer;
use std::io;
use streams::System;

// Puts a page's metadata and data to the outputs.
pub fn put_page(run: Run<'_>, metadata: &[u8], data: &[u8]) -> Result<(), Failed> {
    let metadata = text::front(metadata, run.plan.metadata as usize);
    streams::put(run.metadata, metadata).map_err(Failed::Metadata)?;
    let data = text::front(data, run.plan.data as usize);
    streams::put(run.data, data).map_err(Failed::Data)
}

// The number of a page in the dump.
pub fn page_number(out: &mut Answer, run: Run<'_>, totals: &Totals) {
    out.page_number(text::plus(run.first, totals.pages));
}

// Whether a page that was not refused has a line: bits were corrected, an erased block has zeros, or some blocks are erased and others
// are not.
fn has_line(run: Run<'_>, sums: Sums) -> bool {
    let some_erased = 0 < sums.erased && !sums.is_erased(run.plan.blocks);
    !run.quiet && (0 < sums.flips || 0 < sums.zeros || some_erased)
}

// A page that the outputs took.
fn done<R: System>(rt: &R, out: &mut Answer, run: Run<'_>, totals: &mut Totals, counts: &[u8]) {
    let sums = Sums::of(counts);
    if has_line(run, sums) {
        page_number(out, run, totals);
        out.reply(0);
        lines::blocks(out, run.plan, sums, counts);
        out.flush(rt);
    }
    totals.was_read(sums, sums.is_erased(run.plan.blocks));
}

// A page with ruined blocks, whose place is filled.
pub fn fill_place(run: Run<'_>, totals: &mut Totals, counts: &[u8]) -> Result<(), Failed> {
    put_page(run, &[255u8; 256], &[255u8; 65536])?;
    totals.was_not_read(Sums::of(counts).ruined);
    Ok(())
}

// A page that was refused. One with ruined blocks has its place filled, or what can be saved of it put there.
fn refused<R: System>(
    rt: &R,
    out: &mut Answer,
    run: Run<'_>,
    totals: &mut Totals,
    page: &[u8],
    refusal: Refusal,
    counts: &[u8],
) -> Result<(), Failed> {
    page_number(out, run, totals);
    lines::refused(out, run.plan, page.len(), refusal, counts);
    out.flush(rt);
    if !matches!(refusal, Refusal::Uncorrectable(_)) {
        totals.was_not_read(0);
        return Ok(());
    }
    if run.has_list() {
        saving::save(rt, out, run, totals, page, counts)
    } else {
        fill_place(run, totals, counts)
    }
}

// Reads a page of a dump, its data by way of the buffer.
pub fn read_next<R: System>(
    rt: &R,
    out: &mut Answer,
    run: Run<'_>,
    totals: &mut Totals,
    page: &[u8],
    data: &mut [u8],
) -> Result<(), Failed> {
    let mut metadata = [0u8; 256];
    let mut counts = [0u8; 256];
    let counts = text::front_mut(&mut counts, run.plan.blocks as usize);
    match reading::read(run, page, &mut metadata, data, counts) {
        Ok(()) => {
            put_page(run, &metadata, data)?;
            done(rt, out, run, totals, counts);
            Ok(())
        }
        Err(refusal) => refused(rt, out, run, totals, page, refusal, counts),
    }
}

// Fills the first bytes of a buffer from place `from` on.
pub fn fill(run: Run<'_>, buffer: &mut [u8], size: usize, from: usize) -> io::Result<usize> {
    streams::fill(run.input, text::front_mut(buffer, size), from)
}

// The next page of a dump, of which the buffer has so many bytes already: whether there was one.
fn next<R: System>(
    rt: &R,
    out: &mut Answer,
    run: Run<'_>,
    totals: &mut Totals,
    carried: usize,
    page: &mut [u8],
    data: &mut [u8],
) -> Result<bool, Failed> {
    if run.most <= totals.pages {
        return Ok(false);
    }
    let n = fill(run, page, run.plan.size as usize, carried).map_err(Failed::Page)?;
    if n == 0 {
        return Ok(false);
    }
    read_next(rt, out, run, totals, text::front(page, n), data)?;
    Ok(true)
}

// Reads the pages of a dump that are left, of the first of which the buffer has so many bytes already.
pub fn pages<R: System>(
    rt: &R,
    out: &mut Answer,
    run: Run<'_>,
    totals: &mut Totals,
    carried: usize,
    page: &mut [u8],
    data: &mut [u8],
) -> Result<(), Failed> {
    let mut from = carried;
    for _ in 0..u64::MAX {
        totals.progress(rt, run);
        if !next(rt, out, run, totals, from, page, data)? {
            break;
        }
        from = 0;
    }
    Ok(())
}
