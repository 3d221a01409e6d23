// What the tool prints of two pages that are compared.
//
//   Format    what pages are compared under: its calls give the counts of two pages, and where they differ
//   Pair      two pages
//   Counts    the counts of two pages
//   show      two pages: their report, or a refusal
//   refused   a refusal: its number and nothing else
use crate::reporting;
use layout_plan::Plan;
use replies::{Refusal, refusal_number};
use say::Answer;
use streams::System;

// The edition, the layout record and the plan of a page under it.
#[derive(Clone, Copy)]
pub struct Format<'a> {
    pub edition: u64,
    pub record: &'a [u8],
    pub plan: Plan,
}

// Two pages.
#[derive(Clone, Copy)]
pub struct Pair<'a> {
    pub first: &'a [u8],
    pub second: &'a [u8],
}

// The counts of two pages, each with as many as the format has blocks, and then zeros.
#[derive(Drop)]
pub struct Counts {
    pub first: [u8; 256],
    pub second: [u8; 256],
}

impl<'a> Format<'a> {
    // The format of a layout record.
    pub fn new(edition: u64, record: &'a [u8]) -> Result<Format<'a>, Refusal> {
        let layout = layout::check_layout(edition, record)?;
        Ok(Format {
            edition,
            record,
            plan: layout_plan::plan_of(layout),
        })
    }

    // The first places of counts, one for each block.
    pub fn blocks(self, counts: &[u8; 256]) -> &[u8] {
        text::front(counts, self.plan.blocks as usize)
    }

    // The counts of one page.
    pub fn look(self, page: &[u8], counts: &mut [u8; 256]) -> Result<(), Refusal> {
        let counts = text::front_mut(counts, self.plan.blocks as usize);
        page_look::look_page(self.edition, self.record, page, counts)
    }

    // The counts of two pages.
    pub fn compare(self, pages: Pair<'_>) -> Result<Counts, Refusal> {
        let mut counts = Counts {
            first: [0; 256],
            second: [0; 256],
        };
        let blocks = self.plan.blocks as usize;
        compare::compare_pages(
            self.edition,
            self.record,
            pages.first,
            pages.second,
            text::front_mut(&mut counts.first, blocks),
            text::front_mut(&mut counts.second, blocks),
        )?;
        Ok(counts)
    }

    // The next position at which two pages differ, from one on.
    pub fn next_difference(self, pages: Pair<'_>, from: usize) -> Result<Option<usize>, Refusal> {
        compare::next_difference(self.edition, self.record, pages.first, pages.second, from)
    }
}

// The line of a refusal, which is noted for the exit status.
pub fn refused(out: &mut Answer, number: u8) {
    if out.status() == 0 {
        out.fail(number);
    }
    out.put(format_args!("reply {number}\n"));
}

// Two pages as they are: the report, or a refusal.
pub fn show<R: System>(rt: &R, out: &mut Answer, format: Format<'_>, pages: Pair<'_>) {
    match format.compare(pages) {
        Ok(counts) => reporting::report(rt, out, format, pages, &counts),
        Err(refusal) => refused(out, refusal_number(refusal)),
    }
}
