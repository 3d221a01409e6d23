// The end of a run of the commands read, look and salvage: its outputs take their place, or are dropped.
#![tactic(auto)]

use read_totals::{Failed, Run, Totals};
use say::Answer;
use streams::{Sink, System};

// What the page, the metadata, the data and the list of ruined blocks are called; a dash where one is not wanted.
#[derive(Clone, Copy)]
pub struct Paths<'a> {
    pub page: &'a [u8],
    pub metadata: &'a [u8],
    pub data: &'a [u8],
    pub list: &'a [u8],
}

// Whether a dump was read, and not one page.
fn is_dump(run: Run<'_>, totals: &Totals) -> bool {
    run.dump || 0 < totals.pages
}

impl Paths<'_> {
    // How many pages are stored where a run failed: none that were to take a place.
    fn stored(self, run: Run<'_>, totals: &Totals) -> u64 {
        let direct = files::is_direct(self.metadata) || files::is_direct(self.data);
        if direct || matches!(run.data, Sink::Output(_)) {
            return totals.pages;
        }
        0
    }

    // Drops the outputs.
    pub fn drop_all<R: System>(self, rt: &R) {
        let number = arguments::run_number(rt);
        for path in [self.metadata, self.data, self.list] {
            files::drop_new(rt, path, number);
        }
    }

    // A run that failed: its outputs are dropped, and what was to be printed is forgotten.
    fn stop<R: System>(self, rt: &R, out: &mut Answer, run: Run<'_>, totals: &Totals) {
        self.drop_all(rt);
        out.forget();
        if is_dump(run, totals) {
            let pages = totals.pages;
            let stored = self.stored(run, totals);
            out.put(format_args!("stopped after {pages} pages, {stored} stored\n"));
        }
    }

    // Whether the outputs are written to their ends and take their places; an error is printed where not.
    fn keep<R: System>(self, rt: &R, out: &mut Answer, run: Run<'_>) -> bool {
        let m = files::end(rt, out, run.metadata, self.metadata);
        let d = files::end(rt, out, run.data, self.data);
        let l = files::end(rt, out, run.list, self.list);
        let paths = [self.list, self.metadata, self.data];
        m && d && l && files::place_all(rt, out, &paths, arguments::run_number(rt))
    }

    // The line of a run that ended before its time, and why.
    fn complain<R: System>(self, rt: &R, out: &mut Answer, failed: Failed) {
        match failed {
            Failed::Refused => (),
            Failed::NoSuchPage => out.bad_argument(rt, "PAGE", self.page, "has no such page"),
            Failed::Page(error) => out.bad_file(rt, self.page, error),
            Failed::Metadata(error) => out.bad_output(rt, self.metadata, error),
            Failed::Data(error) => out.bad_output(rt, self.data, error),
            Failed::List(error) => out.bad_output(rt, self.list, error),
        }
    }

    // The end of a run that ended before its time. Where nothing failed the outputs are dropped before the line is printed.
    fn give_up<R: System>(
        self,
        rt: &R,
        out: &mut Answer,
        run: Run<'_>,
        totals: &Totals,
        failed: Failed,
    ) {
        if matches!(failed, Failed::Refused | Failed::NoSuchPage) {
            self.drop_all(rt);
            self.complain(rt, out, failed);
        } else {
            self.complain(rt, out, failed);
            self.stop(rt, out, run, totals);
        }
    }

    // The end of a run: the outputs take their place where all went well. Nothing is stored where the one page was refused or the dump has
    // not the pages that were asked for.
    pub fn finish<R: System>(
        self,
        rt: &R,
        out: &mut Answer,
        run: Run<'_>,
        totals: &Totals,
        ended: Result<(), Failed>,
    ) {
        match ended {
            Ok(()) => {
                if !self.keep(rt, out, run) {
                    self.stop(rt, out, run, totals);
                } else if is_dump(run, totals) {
                    totals.summary(out, run);
                }
            }
            Err(failed) => self.give_up(rt, out, run, totals, failed),
        }
    }
}
