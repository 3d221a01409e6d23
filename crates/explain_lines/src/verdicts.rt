// What became of a block, and what can be done. The level is t: how many flips the block's code corrects.
use say::Answer;

// A block with a codeword within t flips. Where t is 0 there is no code, and every content is right.
pub fn flipped(out: &mut Answer, block: u64, count: u8, level: u16) {
    out.put(format_args!("reply 0: block {block}, "));
    match count {
        _ if level == 0 => out.put("no ECC, so flips cannot be found\n"),
        0 => out.put(format_args!("no flips (it corrects {level})\n")),
        _ => out.put(format_args!("flips {count} (it corrects {level})\n")),
    }
}

// What can be done about so many flips: something where they are near the level, at least three quarters of it.
pub fn advice(out: &mut Answer, count: u8, level: u16) {
    if count != 0 && 3 * level as u64 <= 4 * count as u64 {
        out.put(
            "next: the block is near its level; refresh the page: read it, and write it anew\n",
        );
    }
}

pub fn erased(out: &mut Answer, block: u64, zeros: u8, level: u16) {
    out.put(format_args!("reply 0: block {block}, erased, "));
    out.put(format_args!("zeros {zeros} (it may have {level})\n"));
    out.put("next: there is nothing to save, ");
    out.put("nothing was written here since the flash was erased\n");
}

pub fn ruined(out: &mut Answer, block: u64, level: u16) {
    out.reply(9);
    out.put(format_args!("block {block}, ruined, no codeword within {level} flips, "));
    out.put(format_args!("and more than {level} zeros\n"));
    out.put("next: no copy of this page is left here; ");
    out.put("nandpage salvage saves what its other blocks hold\n");
}
