// A page with ruined blocks of which the others are saved. What stands in the place of a ruined block is listed.
use crate::{dumping, salvaging};
use read_totals::{Failed, Run, Sums, Totals};
use say::Answer;
use streams::System;

// A page that was stored: it is listed, and has a line.
fn stored<R: System>(
    rt: &R,
    out: &mut Answer,
    run: Run<'_>,
    totals: &mut Totals,
    counts: &[u8],
) -> Result<(), Failed> {
    salvage::put_list(run, totals.pages, counts).map_err(Failed::List)?;
    let ruined = Sums::of(counts).ruined;
    let blocks = run.plan.blocks;
    let saved = (blocks as u64).saturating_sub(ruined);
    dumping::page_number(out, run, totals);
    out.put(format_args!("salvaged {saved} blocks of {blocks}\n"));
    out.flush(rt);
    totals.was_salvaged(ruined);
    Ok(())
}

// Saves what can be saved of a page.
pub fn save<R: System>(
    rt: &R,
    out: &mut Answer,
    run: Run<'_>,
    totals: &mut Totals,
    page: &[u8],
    counts: &[u8],
) -> Result<(), Failed> {
    let mut metadata = [255u8; 256];
    let mut data = [255u8; 65536];
    if !salvaging::salvage(run, page, &mut metadata, &mut data, counts) {
        return dumping::fill_place(run, totals, counts);
    }
    dumping::put_page(run, &metadata, &data)?;
    stored(rt, out, run, totals, counts)
}
