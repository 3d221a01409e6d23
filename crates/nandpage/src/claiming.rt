// The command claim.
use crate::loading;
use arguments::{Choice, Options};
use plans::Planned;
use replies::refusal_number;
use say::Answer;
use streams::System;

// The words as exponents: one of more than 16 bits is none of any block, and neither is the largest of 16.
fn exponents(words: &[u32; 256]) -> [u16; 256] {
    words.map(|word| u16::try_from(word).unwrap_or(u16::MAX))
}

// Checks the claim of the arguments up to `end`: none where an error was printed. A claim of more exponents than any level has is wrong,
// whatever they are: 256 stand for all that are more.
fn claim_page<R: System>(rt: &R, out: &mut Answer, options: &Options, end: usize) -> Option<()> {
    let block = arguments::number(rt, out, options.place(3), "BLOCK")?;
    let Planned { words, plan } = plans::plan_of_words(rt, out, *options)?;
    let first = options.place(4);
    let mut list = [0u32; 256];
    if !arguments::word_list(rt, out, first..end, "EXPONENT", u64::MAX, &mut list) {
        return None;
    }
    let exponents = exponents(&list);
    let claims = text::front(&exponents, end.saturating_sub(first));
    let mut buffer = text::buffer::<65536>();
    let page = loading::load(rt, out, options, plan, &mut buffer)?;
    match page_claim::check_claim(words.edition, &words.record(), page, block, claims) {
        Ok(()) => out.put(format_args!(
            "reply 0: right, these {} bits turned over give a codeword\n",
            claims.len()
        )),
        Err(refusal) => {
            out.page_refused(refusal_number(refusal), page.len(), plan.size, plan.blocks)
        }
    }
    Some(())
}

// Runs the command by its arguments: none where an error was printed.
fn try_claim<R: System>(rt: &R, out: &mut Answer) -> Option<()> {
    let allowed = [Choice::Mark, Choice::Edition, Choice::Page];
    let options = arguments::find_options(rt, out, &allowed)?;
    let count = arguments::count(rt);
    if count < options.place(4) {
        out.error(
            rt,
            "usage: nandpage claim [--edition N] [--mark WORD2] [--page K] WORD0 WORD1 PAGE BLOCK EXPONENT..",
        );
        return None;
    }
    claim_page(rt, out, &options, count)
}

// nandpage claim [--edition N] [--mark WORD2] [--page K] WORD0 WORD1 PAGE BLOCK EXPONENT..
#[inline(never)]
pub fn claim<R: System>(rt: &R, out: &mut Answer) {
    let _ = try_claim(rt, out);
}
