// Where a page bit belongs, and where a code bit lies, under a plan.
ghost use Rattle.std.specs.Prelude.{◌≡◌, ◌<◌};
ghost use Rattle.layout.specs.Bits.{block_of, located, bit_in, position_in};
ghost use Rattle.page_bits.specs.Places.{Near};

use layout::{BitPlace, Refusal};
use layout_plan::{Plan, block_covered, block_start, pitch};
use mark::place;

// The block that starts last at or before a stream position, by a division; beyond the blocks of the page any number of them or more.
fn block_near(plan: Plan, position: u32) -> usize
    ensures eq { Near plan position result }
    ensures small { result < 4295098368 }
{
    let at = position as usize;
    let firsts = plan.firsts;
    let ahead = block_start(plan, firsts);
    if at < ahead {
        let first = plan.first;
        return at / pitch(first);
    }
    let later = plan.later;
    let step = pitch(later);
    if step == 0 {
        return plan.blocks as usize;
    }
    firsts as usize + (at - ahead) / step
}

// The block in which a stream position lies; the number of blocks where it lies in none.
pub fn block_of(plan: Plan, position: u32) -> usize
    ensures { result ≡ block_of plan position }
{
    let blocks = plan.blocks as usize;
    let near = block_near(plan, position);
    if blocks <= near {
        return blocks;
    }
    let block = near as u16;
    let end = block_start(plan, block) + block_covered(plan, block);
    let at = position as usize;
    if at < end {
        return near;
    }
    blocks
}

// The block and the exponent at a position of the stream.
pub fn located(plan: Plan, position: u32) -> BitPlace
    ensures { result ≡ located plan position }
{
    let found = block_of(plan, position);
    let blocks = plan.blocks as usize;
    if blocks <= found {
        return BitPlace::Tail;
    }
    let block = found as u16;
    let offset = position as usize - block_start(plan, block);
    BitPlace::InBlock {
        block: found as u64,
        exponent: (block_covered(plan, block) - 1 - offset) as u64,
    }
}

// The answer to a position, in the page or not: outside the mark, that of the stream position that stands there.
pub fn bit_in(plan: Plan, position: u64) -> Result<BitPlace, Refusal>
    ensures { result ≡ bit_in plan position }
{
    if 8 * plan.size as u64 <= position {
        return Err(Refusal::Range);
    }
    let mark = plan.mark;
    let at = position as u32;
    let start = 8 * mark.offset as u32;
    let length = 8 * mark.length as u32;
    if at < start {
        return Ok(located(plan, at));
    }
    if at < start + length {
        return Ok(BitPlace::Mark);
    }
    Ok(located(plan, at - length))
}

// The answer to a block and an exponent, in their ranges or not.
pub fn position_in(plan: Plan, block: u64, exponent: u64) -> Result<u64, Refusal>
    ensures { result ≡ position_in plan block exponent }
{
    if plan.blocks as u64 <= block {
        return Err(Refusal::Range);
    }
    let number = block as u16;
    let length = block_covered(plan, number) as u64;
    if length <= exponent {
        return Err(Refusal::Range);
    }
    let start = block_start(plan, number) as u64;
    let mark = plan.mark;
    let at = start + (length - 1 - exponent);
    Ok(place(mark, at as usize) as u64)
}
