// What a run of the command compare has to do, and what it came to so far.
//
//   Run, Failed    what is asked of a run, and which file failed
//   Totals         what was counted
#![tactic(auto)]

use say::Answer;
use std::io::Error;
use streams::Source;

// The two files, the second nothing where there is none; the number of the first page, how many pages to compare at most, and
// how many there are, where that is known; when the run began; whether only refusals and the summary are printed; and whether maps are
// printed.
#[derive(Clone, Copy)]
pub struct Run<'a> {
    pub first: Source<'a>,
    pub second: Source<'a>,
    pub from: u64,
    pub most: u64,
    pub known: Option<u64>,
    pub began: u64,
    pub quiet: bool,
    pub map: bool,
}

// Which file failed, and why.
#[derive(Clone, Copy)]
pub enum Failed {
    First(Error),
    Second(Error),
}

// Pages so far, and of them those that differ; blocks that are worse and better, and those that are ruined or erased in the second page only;
// when progress was last shown.
#[derive(Clone, Copy)]
pub struct Totals {
    pub pages: u64,
    pub differing: u64,
    pub worse: u64,
    pub better: u64,
    pub ruined: u64,
    pub erased: u64,
    pub shown: u64,
}

fn add_one(count: &mut u64) {
    *count = count.saturating_add(1);
}

impl Totals {
    pub fn start(began: u64) -> Self {
        Totals {
            pages: 0,
            differing: 0,
            worse: 0,
            better: 0,
            ruined: 0,
            erased: 0,
            shown: began,
        }
    }

    // One page more.
    pub fn passed(&mut self) {
        add_one(&mut self.pages);
    }

    // A block, by its counts in the two pages.
    fn count(&mut self, first: u8, second: u8) {
        match (first, second) {
            (255, _) | (128.., 0..=127) => (),
            (_, 255) => add_one(&mut self.ruined),
            (0..=127, 128..) => add_one(&mut self.erased),
            _ if first < second => add_one(&mut self.worse),
            _ if second < first => add_one(&mut self.better),
            _ => (),
        }
    }

    // One page more that differs, with the counts of its blocks in both dumps.
    pub fn differed(&mut self, firsts: &[u8], seconds: &[u8]) {
        self.passed();
        add_one(&mut self.differing);
        for (first, second) in firsts.iter().zip(seconds) {
            self.count(*first, *second);
        }
    }

    // The last line of a comparison of dumps.
    pub fn summary(&self, out: &mut Answer) {
        out.put(format_args!(
            "pages {}, differing {}; blocks worse {}, better {}, ruined now {}, erased now {}\n",
            self.pages, self.differing, self.worse, self.better, self.ruined, self.erased,
        ));
    }
}
