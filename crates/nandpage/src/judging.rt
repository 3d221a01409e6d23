// The command judge.
use crate::loading;
use arguments::{Choice, Options};
use layout_plan::Plan;
use plans::Planned;
use replies::{Refusal, refusal_number};
use say::Answer;
use streams::System;

// The count of a block: its corrected bits, or 128 plus its zeros where it is erased.
fn count(out: &mut Answer, block: u64, n: u8) {
    if n < 128 {
        out.put(format_args!("reply 0: block {block}, corrected bits {n}\n"));
    } else {
        out.put(format_args!("reply 0: block {block}, erased, zeros {}\n", n - 128));
    }
}

fn refused(out: &mut Answer, plan: Plan, page: usize, refusal: Refusal) {
    if let Refusal::Uncorrectable(block) = refusal {
        out.ruined(block);
        out.put("\n");
    } else {
        out.page_refused(refusal_number(refusal), page, plan.size, plan.blocks);
    }
}

// Judges the block and the page that the arguments name: none where an error was printed.
fn judge_page<R: System>(rt: &R, out: &mut Answer, options: &Options) -> Option<()> {
    let block = arguments::number(rt, out, options.place(3), "BLOCK")?;
    let Planned { words, plan } = plans::plan_of_words(rt, out, *options)?;
    let mut buffer = text::buffer::<65536>();
    let page = loading::load(rt, out, options, plan, &mut buffer)?;
    match page_judge::judge_block(words.edition, &words.record(), page, block) {
        Ok(n) => count(out, block, n),
        Err(refusal) => refused(out, plan, page.len(), refusal),
    }
    Some(())
}

// Runs the command by its arguments: none where an error was printed.
fn try_judge<R: System>(rt: &R, out: &mut Answer) -> Option<()> {
    let allowed = [Choice::Mark, Choice::Edition, Choice::Page];
    let options = arguments::find_options(rt, out, &allowed)?;
    let usage =
        "usage: nandpage judge [--edition N] [--mark WORD2] [--page K] WORD0 WORD1 PAGE BLOCK";
    if !arguments::are(rt, out, options.at, 4, usage) {
        return None;
    }
    judge_page(rt, out, &options)
}

// nandpage judge [--edition N] [--mark WORD2] [--page K] WORD0 WORD1 PAGE BLOCK
#[inline(never)]
pub fn judge<R: System>(rt: &R, out: &mut Answer) {
    let _ = try_judge(rt, out);
}
