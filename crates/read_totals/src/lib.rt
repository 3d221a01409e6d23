// What a run of the commands read, look and salvage has to do, and what it came to so far.
//
//   sums.rt     what the counts of a page come to
//   Run         what it has to do
//   Failed      why it ended before its time
//   Totals      what it came to
#![tactic(auto)]

mod sums;

use layout_plan::Plan;
use say::Answer;
use std::io::Error;
use streams::{Sink, Source, System};
pub use sums::{RUINED, Sums};

// The edition, the layout record and its plan; input, metadata, data and the list of ruined blocks, the last three nothing where they
// are not wanted; whether the file is read as a dump however long it is; the number of the first page; how many pages to read at
// most, and how many there are, where that is known; when the run began; whether only refused pages have a line; whether pages are
// looked at only; and whether a ruined block that goes to the list is stored as it stands in the page.
#[derive(Clone, Copy)]
pub struct Run<'a> {
    pub edition: u64,
    pub record: [u8; 12],
    pub plan: Plan,
    pub input: Source<'a>,
    pub metadata: Sink<'a>,
    pub data: Sink<'a>,
    pub list: Sink<'a>,
    pub dump: bool,
    pub first: u64,
    pub most: u64,
    pub known: Option<u64>,
    pub began: u64,
    pub quiet: bool,
    pub look: bool,
    pub raw: bool,
}

// Whether an output is wanted.
pub fn is_wanted(sink: Sink<'_>) -> bool {
    !matches!(sink, Sink::Nothing)
}

impl Run<'_> {
    // Whether metadata or data is wanted.
    pub fn wants(&self) -> bool {
        is_wanted(self.metadata) || is_wanted(self.data)
    }

    // Whether the list of ruined blocks is wanted, and with it what can be saved of a page that has some.
    pub fn has_list(&self) -> bool {
        is_wanted(self.list)
    }
}

// Why a run ends before its time: its one page is refused, which was printed; a dump has no such page; or a file failed.
#[derive(Clone, Copy)]
pub enum Failed {
    Refused,
    NoSuchPage,
    Page(Error),
    Metadata(Error),
    Data(Error),
    List(Error),
}

// Pages so far, of them those that were read, are erased and were salvaged, corrected bits, the most in a block, ruined blocks; when progress
// was last shown.
#[derive(Clone, Copy)]
pub struct Totals {
    pub pages: u64,
    pub read: u64,
    pub erased: u64,
    pub salvaged: u64,
    pub corrected: u64,
    pub most: u8,
    pub ruined: u64,
    pub shown: u64,
}

impl Totals {
    pub fn start(began: u64) -> Self {
        Totals {
            pages: 0,
            read: 0,
            erased: 0,
            salvaged: 0,
            corrected: 0,
            most: 0,
            ruined: 0,
            shown: began,
        }
    }

    // One page more that was not refused, with these sums.
    pub fn was_read(&mut self, sums: Sums, erased: bool) {
        self.pages = text::plus(self.pages, 1);
        let kind = if erased {
            &mut self.erased
        } else {
            &mut self.read
        };
        *kind = text::plus(*kind, 1);
        self.corrected = text::plus(self.corrected, sums.flips);
        self.most = self.most.max(sums.most);
    }

    // One page more that was refused, with so many ruined blocks.
    pub fn was_not_read(&mut self, ruined: u64) {
        self.pages = text::plus(self.pages, 1);
        self.ruined = text::plus(self.ruined, ruined);
    }

    // One page more that was refused and salvaged.
    pub fn was_salvaged(&mut self, ruined: u64) {
        self.was_not_read(ruined);
        self.salvaged = text::plus(self.salvaged, 1);
    }

    // Shows how far a dump is read, on standard error.
    pub fn progress<R: System>(&mut self, rt: &R, run: Run<'_>) {
        if !run.quiet {
            let size = run.plan.size;
            self.shown = dump_progress::tell(
                rt, self.pages, run.known, size, run.began, self.shown,
            );
        }
    }

    // The last line of a dump.
    pub fn summary(&self, out: &mut Answer, run: Run<'_>) {
        let refused = self
            .pages
            .saturating_sub(text::plus(self.read, self.erased));
        out.put(format_args!("pages {}, read {}, ", self.pages, self.read));
        out.put(format_args!("erased {}, refused {refused}; ", self.erased));
        out.put(format_args!("corrected bits {}, ", self.corrected));
        out.put(format_args!("at most {} in a block; ", self.most));
        out.put(format_args!("ruined blocks {}", self.ruined));
        if run.has_list() {
            out.put(format_args!("; salvaged pages {}", self.salvaged));
        }
        out.put("\n");
    }
}
