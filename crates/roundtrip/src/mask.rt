// Masks: how many bits of each block they name, and flipping those bits.
ghost use Rattle.std.specs.Prelude.{◌≡◌, ◌+◌, ◌*◌, ◌<◌, length, leb};
ghost use Rattle.bits.specs.Bits.{run};
ghost use Rattle.mark.specs.Mark.{stream_bit};
ghost use Rattle.layout_plan.specs.Plan.{level};
ghost use Rattle.code.specs.Word.{ones};
ghost use Rattle.roundtrip.specs.Mask.{overlaid, named, few_below, allowed};

use bits::read::bit_at;
use layout_plan::{Plan, block_covered, block_shape, block_start};
use mark::{Mark, place};

// The number of ones of n bits of the stream from a position on.
fn ones_at(mark: Mark, mask: &[u8], position: usize, n: usize) -> usize
    requires { position + n + 8 * mark.length < 18446744073709551616 }
    ensures { result ≡ ones (run (stream_bit mark mask.now) position n) }
{
    let mut count = 0;
    for i in 0..n {
        let at = place(mark, position + i);
        let bit = bit_at(mask, at);
        count += bit as usize;
    }
    count
}

// Whether a mask names at most t covered bits of a block.
fn block_allowed(plan: Plan, mask: &[u8], block: u16) -> bool
    ensures { result ≡ leb (named plan mask.now block) (level plan block) }
{
    let position = block_start(plan, block);
    let n = block_covered(plan, block);
    let shape = block_shape(plan, block);
    let count = ones_at(plan.mark, mask, position, n);
    count <= shape.level as usize
}

// Whether a mask names at most t covered bits of each block.
fn blocks_allowed(plan: Plan, mask: &[u8]) -> bool
    ensures { result ≡ few_below plan mask.now plan.blocks }
{
    let blocks = plan.blocks;
    for block in 0..blocks {
        if !block_allowed(plan, mask, block) {
            return false;
        }
    }
    true
}

// Whether a mask may be laid over a page.
pub fn mask_allowed(plan: Plan, mask: &[u8]) -> bool
    ensures { result ≡ allowed plan mask.now }
{
    if mask.len() != plan.size as usize {
        return false;
    }
    blocks_allowed(plan, mask)
}

// Flips every bit of a page that the mask names.
pub fn flip_by(mask: &[u8], page: &mut [u8])
    requires { length mask.now ≡ length page.old }
    ensures { page.new ≡ overlaid mask.now page.old }
{
    let n = page.len();
    for i in 0..n {
        page[i] ^= mask[i];
    }
}
