// A file that is read: at most one page, or a dump of many.
use crate::{dumping, lines, reading};
use read_totals::{Failed, Run, Sums, Totals};
use say::Answer;
use streams::System;

// A page that was read and that the outputs took.
fn done(out: &mut Answer, run: Run<'_>, counts: &[u8]) {
    out.reply(0);
    if !run.look {
        out.put("page read, ");
    }
    lines::blocks(out, run.plan, Sums::of(counts), counts);
}

// A file of at most one page. A page that is refused leaves the files as they are.
fn single(out: &mut Answer, run: Run<'_>, page: &[u8], data: &mut [u8]) -> Result<(), Failed> {
    let mut metadata = [0u8; 256];
    let mut counts = [0u8; 256];
    let counts = text::front_mut(&mut counts, run.plan.blocks as usize);
    if let Err(refusal) = reading::read(run, page, &mut metadata, data, counts) {
        lines::refused(out, run.plan, page.len(), refusal, counts);
        return Err(Failed::Refused);
    }
    dumping::put_page(run, &metadata, data)?;
    done(out, run, counts);
    Ok(())
}

// The pages of a dump that the options ask for, after those before them were passed over.
fn range<R: System>(
    rt: &R,
    out: &mut Answer,
    run: Run<'_>,
    totals: &mut Totals,
    page: &mut [u8],
    data: &mut [u8],
) -> Result<(), Failed> {
    let size = run.plan.size;
    let first = text::front_mut(page, size as usize);
    if !files::pass(rt, run.input, first, size, run.first).map_err(Failed::Page)? {
        return Err(Failed::NoSuchPage);
    }
    dumping::pages(rt, out, run, totals, 0, page, data)?;
    if totals.pages == 0 {
        return Err(Failed::NoSuchPage);
    }
    Ok(())
}

// A file longer than a page, of which the first and one byte of the next are in the buffer.
fn dump<R: System>(
    rt: &R,
    out: &mut Answer,
    run: Run<'_>,
    totals: &mut Totals,
    page: &mut [u8],
    data: &mut [u8],
) -> Result<(), Failed> {
    let size = run.plan.size as usize;
    dumping::read_next(rt, out, run, totals, text::front(page, size), data)?;
    if size < page.len() {
        page[0] = page[size];
    }
    dumping::pages(rt, out, run, totals, 1, page, data)
}

// The whole file. One byte more than a page is read first, so that a longer file is known.
fn whole<R: System>(
    rt: &R,
    out: &mut Answer,
    run: Run<'_>,
    totals: &mut Totals,
    page: &mut [u8],
    data: &mut [u8],
) -> Result<(), Failed> {
    let size = run.plan.size as usize;
    let n = dumping::fill(run, page, size + 1, 0).map_err(Failed::Page)?;
    if n <= size {
        return single(out, run, text::front(page, n), data);
    }
    dump(rt, out, run, totals, page, data)
}

// Reads the file of a run: all of it, or the pages that are asked for.
pub fn read_file<R: System>(
    rt: &R,
    out: &mut Answer,
    run: Run<'_>,
    totals: &mut Totals,
) -> Result<(), Failed> {
    let mut page = text::buffer::<65536>();
    let mut data = text::buffer::<65536>();
    if run.dump {
        return range(rt, out, run, totals, &mut page, &mut data);
    }
    whole(rt, out, run, totals, &mut page, &mut data)
}
