// Calls about one sector of a page. Each prints its answer; none where the words are no such call.
use crate::{answers, buffers};
use layout_plan::Sectors;
use streams::System;

// A judgement.
pub fn judge<R: System + Input + Print>(rt: &R, sectors: Sectors, words: &[u8]) -> Option<()> {
    let mut page = text::buffer::<65536>();
    let size = vector_words::buffer(words, 8, &mut page)?;
    let block = vector_words::number(words, 9)?;
    let answer = sector_pages::judge_block(sectors, text::front(&page, size as usize), block);
    answers::show_judge(rt, answer);
    Some(())
}

// A claim.
pub fn claim<R: System + Input + Print>(rt: &R, sectors: Sectors, words: &[u8]) -> Option<()> {
    let mut page = text::buffer::<65536>();
    let size = vector_words::buffer(words, 8, &mut page)?;
    let block = vector_words::number(words, 9)?;
    let mut bytes = [0u8; 512];
    let n = vector_words::buffer(words, 10, &mut bytes)?;
    if n % 2 != 0 {
        return None;
    }
    let exponents = buffers::exponents(&bytes);
    let claims = text::front(&exponents, n as usize / 2);
    let page = text::front(&page, size as usize);
    answers::show_claim(rt, sector_pages::check_claim(sectors, page, block, claims));
    Some(())
}
