// One page of each dump.
use crate::lines::{Format, Pair};
use crate::{lines, mapping, reporting};
use compare_totals::{Run, Totals};
use replies::{Refusal, refusal_number};
use say::Answer;
use streams::{Source, System};

// The number of a page in the dumps.
fn page_number(out: &mut Answer, run: Run<'_>, totals: &Totals) {
    out.put(format_args!("page {}\n", text::plus(run.from, totals.pages)));
}

// A page of two dumps that differs.
fn differs<R: System>(
    rt: &R,
    out: &mut Answer,
    run: Run<'_>,
    format: Format<'_>,
    totals: &mut Totals,
    pages: Pair<'_>,
) -> Result<(), Refusal> {
    let counts = format.compare(pages)?;
    if !run.quiet {
        page_number(out, run, totals);
        reporting::report(rt, out, format, pages, &counts);
    }
    totals.differed(format.blocks(&counts.first), format.blocks(&counts.second));
    Ok(())
}

// A page of two dumps. Only one that differs has its blocks decided.
fn compared<R: System>(
    rt: &R,
    out: &mut Answer,
    run: Run<'_>,
    format: Format<'_>,
    totals: &mut Totals,
    pages: Pair<'_>,
) -> Result<(), Refusal> {
    match format.next_difference(pages, 0) {
        Ok(Some(_)) => differs(rt, out, run, format, totals, pages),
        Ok(None) => {
            totals.passed();
            Ok(())
        }
        Err(refusal) => {
            page_number(out, run, totals);
            Err(refusal)
        }
    }
}

// The map of a page of one dump, with the replies of a comparison.
fn map_one(out: &mut Answer, format: Format<'_>, page: &[u8]) -> Result<(), Refusal> {
    let plan = format.plan;
    if page.len() == plan.size as usize && 16384 < plan.size {
        return Err(Refusal::BufferLength);
    }
    let mut counts = [0u8; 256];
    match format.look(page, &mut counts) {
        Ok(()) | Err(Refusal::Uncorrectable(_)) => {
            mapping::map(out, plan, &counts);
            Ok(())
        }
        Err(refusal) => Err(refusal),
    }
}

// The maps of a page of two dumps, beside each other.
fn map_two(out: &mut Answer, format: Format<'_>, pages: Pair<'_>) -> Result<(), Refusal> {
    let counts = format.compare(pages)?;
    mapping::map(out, format.plan, &counts.first);
    out.put(" ");
    mapping::map(out, format.plan, &counts.second);
    Ok(())
}

// The map of the next page of a dump, or of two dumps.
fn mapped<R: System>(
    rt: &R,
    out: &mut Answer,
    run: Run<'_>,
    format: Format<'_>,
    totals: &mut Totals,
    pages: Pair<'_>,
) -> Result<(), Refusal> {
    if let Source::Nothing = run.second {
        map_one(out, format, pages.first)?;
    } else {
        map_two(out, format, pages)?;
    }
    out.put("\n");
    out.flush(rt);
    totals.passed();
    Ok(())
}

// The next page of the dumps: whether to go on. A page that is refused ends the run.
pub fn page<R: System>(
    rt: &R,
    out: &mut Answer,
    run: Run<'_>,
    format: Format<'_>,
    totals: &mut Totals,
    pages: Pair<'_>,
) -> bool {
    let done = if run.map {
        mapped(rt, out, run, format, totals, pages)
    } else {
        compared(rt, out, run, format, totals, pages)
    };
    if let Err(refusal) = done {
        lines::refused(out, refusal_number(refusal));
    }
    done.is_ok()
}
