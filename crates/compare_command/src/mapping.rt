// A map of a page: a character a block.
use layout_plan::Plan;
use say::Answer;

// The character of a block by its count, under its level: `X` where it is ruined, `-` where it is erased, else by its flips: `.` for none, `#`
// where they are its level, else the tenths of the level that they are, at least 1.
fn put_block(out: &mut Answer, count: u8, level: u16) {
    match count {
        0 => out.put("."),
        255 => out.put("X"),
        128.. => out.put("-"),
        flips if level <= flips as u16 => out.put("#"),
        flips => out.put((10 * flips as u32 / level as u32).max(1)),
    }
}

// The characters of the blocks of a page, by their counts. The line is not ended.
pub fn map(out: &mut Answer, plan: Plan, counts: &[u8]) {
    for (b, count) in (0..plan.blocks).zip(counts) {
        put_block(out, *count, layout_plan::block_shape(plan, b).level);
    }
}
