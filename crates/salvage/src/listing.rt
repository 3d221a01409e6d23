// The list of the ruined blocks of a page that is salvaged: a line a block says where its message lies in the files, and what stands there.
use layout_plan::Plan;
use read_totals::Run;
use say::Answer;
use std::io;

// Bytes of a file from one to before another, where there are any.
fn bytes(line: &mut Answer, name: &str, base: u64, from: u64, end: u64) {
    if from < end {
        let first = text::plus(base, from);
        let last = text::plus(base, end - 1);
        line.put(format_args!("{name} bytes {first} to {last}"));
    }
}

// Where the message of a ruined block lies in the files.
fn places(line: &mut Answer, plan: Plan, before: u64, b: u16) {
    let place = crate::place_of(plan, b);
    let from = place.at / 8;
    let end = text::plus(place.at, place.bits) / 8;
    let m = plan.metadata as u64;
    let metadata = text::times(before, plan.metadata as u32);
    let data = text::times(before, plan.data);
    if from < m {
        bytes(line, " metadata", metadata, from, m);
        bytes(line, ", data", data, 0, end.saturating_sub(m));
    } else {
        bytes(line, " data", data, from - m, end.saturating_sub(m));
    }
}

// The line of block b of the page after so many.
fn listed(line: &mut Answer, run: Run<'_>, pages: u64, b: u16) {
    let page = text::plus(run.first, pages);
    line.put(format_args!("page {page} block {b} ruined:"));
    places(line, run.plan, pages, b);
    line.put(if run.raw {
        " are as they stand in the page\n"
    } else {
        " hold 0xFF\n"
    });
}

// Puts the lines of the ruined blocks of the page after so many to the list.
pub fn put_list(run: Run<'_>, pages: u64, counts: &[u8]) -> io::Result<()> {
    let mut line = Answer::new();
    crate::each_ruined(run.plan, counts, |b| listed(&mut line, run, pages, b));
    streams::put(run.list, line.text())
}
