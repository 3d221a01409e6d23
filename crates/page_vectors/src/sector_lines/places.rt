// Calls about a layout and its bits. Each prints its answer; none where the words are no such call.
use layout::BitPlace;
use layout_plan::Sectors;
use streams::System;

// A layout.
pub fn check<R: System + Input + Print>(rt: &R, sectors: Sectors) {
    let reply = layout::answer_reply(sectors::check_sectors(sectors));
    vector_io::show(rt, &[reply as u64, 0]);
}

// A page bit. A page of sectors has no mark.
pub fn bit<R: System + Input + Print>(rt: &R, sectors: Sectors, words: &[u8]) -> Option<()> {
    let answer = sector_pages::locate_bit(sectors, vector_words::number(words, 8)?);
    let reply = layout::answer_reply(answer) as u64;
    match answer {
        Ok(BitPlace::InBlock { block, exponent }) => {
            vector_io::show(rt, &[reply, 0, 0, block, exponent])
        }
        Ok(BitPlace::Tail) => vector_io::show(rt, &[reply, 0, 1]),
        Ok(BitPlace::Mark) => vector_io::show(rt, &[reply, 0]),
        Err(_) => vector_io::show(rt, &[reply, 0]),
    }
    Some(())
}

// A code bit.
pub fn position<R: System + Input + Print>(rt: &R, sectors: Sectors, words: &[u8]) -> Option<()> {
    let block = vector_words::number(words, 8)?;
    let exponent = vector_words::number(words, 9)?;
    let answer = sector_pages::bit_position(sectors, block, exponent);
    let reply = layout::answer_reply(answer) as u64;
    match answer {
        Ok(position) => vector_io::show(rt, &[reply, 0, position]),
        Err(_) => vector_io::show(rt, &[reply, 0]),
    }
    Some(())
}
