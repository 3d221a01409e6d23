// The command explain (document 02, E2): why a layout is refused, or what became of a block of a page.
//
// What is said comes from the proved calls explain_layout, explain_block and explain_bit; the crate `explain_lines` puts
// it into words.
use crate::loading;
use arguments::{Choice, LayoutWords, Options};
use page_explain::BlockFinding;
use say::Answer;
use streams::System;

// Explains a layout.
fn of_layout(out: &mut Answer, words: &LayoutWords) {
    let record = words.record();
    match explain::explain_layout(words.edition, &record) {
        Ok(()) => explain_lines::accepted(out),
        Err(why) => {
            explain_lines::refused(out, layout_record::fields_of(words.edition, &record), why)
        }
    }
}

// Explains a block of a page.
fn of_block(out: &mut Answer, words: &LayoutWords, page: &[u8], block: u64) {
    let edition = words.edition;
    let record = words.record();
    let mut list = [0u32; 64];
    match page_explain::explain_block(edition, &record, page, block, &mut list) {
        Ok(BlockFinding::Flips { count, level }) => {
            explain_lines::flipped(out, block, count, level);
            explain_lines::flips(out, edition, &record, text::front(&list, count as usize));
            explain_lines::advice(out, count, level);
        }
        Ok(BlockFinding::Erased { zeros, level }) => {
            explain_lines::erased(out, block, zeros, level)
        }
        Ok(BlockFinding::Ruined { block, level }) => {
            explain_lines::ruined(out, block as u64, level)
        }
        Err(why) => explain_lines::refused(out, layout_record::fields_of(edition, &record), why),
    }
}

// Explains a block of the page that the arguments name: none where an error was printed. A page is read where the layout is accepted: it says
// how many bytes a page has.
fn of_page<R: System>(rt: &R, out: &mut Answer, options: &Options) -> Option<()> {
    let block = arguments::number(rt, out, options.place(3), "BLOCK")?;
    let words = options.layout_words(rt, out)?;
    let Ok(l) = layout::check_layout(words.edition, &words.record()) else {
        of_layout(out, &words);
        return Some(());
    };
    let mut buffer = text::buffer::<65536>();
    let page = loading::load(rt, out, options, layout_plan::plan_of(l), &mut buffer)?;
    of_block(out, &words, page, block);
    Some(())
}

// Runs the command by its arguments: none where an error was printed.
fn try_explain<R: System>(rt: &R, out: &mut Answer) -> Option<()> {
    let allowed = [Choice::Mark, Choice::Edition, Choice::Page];
    let options = arguments::find_options(rt, out, &allowed)?;
    let count = arguments::count(rt);
    if count == options.place(4) {
        return of_page(rt, out, &options);
    }
    if count != options.place(2) {
        out.error(
            rt,
            "usage: nandpage explain [--edition N] [--mark WORD2] [--page K] WORD0 WORD1 [PAGE BLOCK]",
        );
        return None;
    }
    if options.page.is_some() {
        out.error(rt, "--page asks about a block: PAGE and BLOCK are missing");
        return None;
    }
    let words = options.layout_words(rt, out)?;
    of_layout(out, &words);
    Some(())
}

// nandpage explain [--edition N] [--mark WORD2] [--page K] WORD0 WORD1 [PAGE BLOCK]
#[inline(never)]
pub fn explain<R: System>(rt: &R, out: &mut Answer) {
    let _ = try_explain(rt, out);
}
