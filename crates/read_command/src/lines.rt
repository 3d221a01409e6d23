// The line of a page that is read.
use layout_plan::Plan;
use read_totals::{RUINED, Sums};
use replies::{Refusal, refusal_number};
use say::Answer;

// A block in a list, by its count: its corrected bits, that it is erased and how many of its bits are zeros, or that it is ruined.
fn put_count(out: &mut Answer, n: u8) {
    match n {
        RUINED => out.put(" ruined"),
        0..=127 => out.put(format_args!(" {n}")),
        _ => out.put(format_args!(" erased:{}", n - 128)),
    }
}

// The blocks of a page one after the other; the line is ended.
fn by_block(out: &mut Answer, counts: &[u8]) {
    out.put("; by block");
    for n in counts {
        put_count(out, *n);
    }
    out.put("\n");
}

// The rest of a line about a page that is not refused: its corrected bits, or its zeros where every block is erased.
pub fn blocks(out: &mut Answer, plan: Plan, sums: Sums, counts: &[u8]) {
    if sums.is_erased(plan.blocks) {
        out.put(format_args!("erased, zeros {}", sums.zeros));
    } else {
        out.put(format_args!(
            "corrected bits {}, at most {} in a block",
            sums.flips, sums.most
        ));
    }
    by_block(out, counts);
}

// The line of a page that is refused. One that has a ruined block has all its blocks shown.
pub fn refused(out: &mut Answer, plan: Plan, page: usize, refusal: Refusal, counts: &[u8]) {
    if let Refusal::Uncorrectable(block) = refusal {
        out.ruined(block);
        by_block(out, counts);
    } else {
        out.page_refused(refusal_number(refusal), page, plan.size, plan.blocks);
    }
}
