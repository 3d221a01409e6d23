// Copying metadata and data out of a page: the messages as they stand in it, then the kept exponents flipped and the messages of erased
// blocks filled with ones.
ghost use Rattle.std.specs.Prelude.{◌≡◌, [], ◌∷◌, ◌++◌, ◌+◌, ◌*◌, ◌≤◌, ◌<◌, length};
ghost use Rattle.bits.specs.Bits.{run, placed};
ghost use Rattle.mark.specs.Mark.{stream_bit};
ghost use Rattle.layout_plan.specs.Plan.{covered, start, from, bits};
ghost use Rattle.code.specs.Word.{Below};
ghost use Rattle.page_plan.specs.Plans.{Planned, Ready};
ghost use Rattle.payload.specs.Payload.{Joined};
ghost use Rattle.page_keep.specs.Keeping.{kept, Kept};
ghost use Rattle.page_copy.specs.Copying.{texts, FlippedIn, FilledIn, RestoredIn, RestoredAll};

use layout_plan::{Plan, block_covered, block_shape, block_start};
use page_plan::message_start;
use page_runs::read::copy_out;

// Copies the message of a block out as it stands in the page.
fn copy_message(plan: Plan, page: &[u8], block: u16, metadata: &mut [u8], data: &mut [u8])
    requires { (Ready plan page.now) × (block < plan.blocks) × (length metadata.old ≡ plan.metadata) × (length «data».old ≡ plan.«data») }
    ensures { Joined metadata.old «data».old metadata.new «data».new
        (placed (metadata.old ++ «data».old) (from plan block)
        (run (stream_bit plan.mark page.now) (start plan block) (bits plan block))) }
{
    let mark = plan.mark;
    let shape = block_shape(plan, block);
    let n = shape.message as usize;
    let start = block_start(plan, block);
    let position = message_start(plan, block);
    copy_out(mark, page, start, metadata, data, position, n);
}

// Copies the messages of all blocks out as they stand in the page.
pub fn copy_messages(plan: Plan, page: &[u8], metadata: &mut [u8], data: &mut [u8])
    requires { (Ready plan page.now) × (length metadata.old ≡ plan.metadata) × (length «data».old ≡ plan.«data») }
    ensures { Joined metadata.old «data».old metadata.new «data».new
        (placed (metadata.old ++ «data».old) 0 (texts plan page.now plan.blocks)) }
{
    for b in 0..plan.blocks {
        copy_message(plan, page, b, metadata, data);
    }
}

// Flips the bit of the payload that is the coefficient of x^p of a block. A bit of the parity lies in no output.
fn flip_place(plan: Plan, block: u16, p: u16, metadata: &mut [u8], data: &mut [u8])
    requires planned { (Planned plan) × (block < plan.blocks) × (p < covered plan block) }
    requires metadata_len { (length metadata.old ≡ plan.metadata) × (length «data».old ≡ plan.«data») }
    ensures { FlippedIn plan block (p ∷ []) metadata.old «data».old metadata.new «data».new }
{
    let shape = block_shape(plan, block);
    let bits = shape.message as usize;
    let n = block_covered(plan, block);
    let start = message_start(plan, block);
    let j = n - 1 - p as usize;
    if j < bits {
        payload::flip(metadata, data, start + j);
    }
}

// Flips the bits of the payload at the first n exponents that are kept for a block.
fn flip_block(
    plan: Plan,
    block: u16,
    places: &[u16],
    n: usize,
    metadata: &mut [u8],
    data: &mut [u8],
)
    requires planned { (Planned plan) × (block < plan.blocks) × (n ≤ 64) × (Below (covered plan block) (kept places.now block n)) × (64 * block + 64 ≤ length places.now) }
    requires metadata_len { (length metadata.old ≡ plan.metadata) × (length «data».old ≡ plan.«data») }
    ensures { FlippedIn plan block (kept places.now block n)
        metadata.old «data».old metadata.new «data».new }
{
    let at = 64 * block as usize;
    for i in 0..n {
        flip_place(plan, block, places[at + i], metadata, data);
    }
}

// Fills the message of a block with ones.
fn fill_block(plan: Plan, block: u16, metadata: &mut [u8], data: &mut [u8])
    requires planned { (Planned plan) × (block < plan.blocks) }
    requires metadata_len { (length metadata.old ≡ plan.metadata) × (length «data».old ≡ plan.«data») }
    ensures { FilledIn plan block metadata.old «data».old metadata.new «data».new }
{
    let shape = block_shape(plan, block);
    let n = shape.message as usize;
    let start = message_start(plan, block);
    payload::fill(metadata, data, start, n);
}

// Restores the message of a block with the count n: flips its kept exponents, or fills it where the block is erased.
fn restore_block(
    plan: Plan,
    block: u16,
    places: &[u16],
    n: usize,
    metadata: &mut [u8],
    data: &mut [u8],
)
    requires planned { (Planned plan) × (block < plan.blocks) × (n < 128 → n ≤ 64) × (n < 128 → Below (covered plan block) (kept places.now block n)) × (64 * block + 64 ≤ length places.now) }
    requires metadata_len { (length metadata.old ≡ plan.metadata) × (length «data».old ≡ plan.«data») }
    ensures { RestoredIn plan block places.now n
        metadata.old «data».old metadata.new «data».new }
{
    if n < 128 {
        flip_block(plan, block, places, n, metadata, data);
        return;
    }
    fill_block(plan, block, metadata, data);
}

// A count as a number of places.
fn wide(count: u8) -> usize
    ensures { result ≡ count }
{
    count as usize
}

// Restores the messages of all blocks; `flips` has the count of each.
pub fn restore_blocks(
    plan: Plan,
    places: &[u16],
    flips: &[u8; 256],
    metadata: &mut [u8],
    data: &mut [u8],
)
    requires planned { (Planned plan) × (Kept plan places.now flips.now) × (64 * plan.blocks ≤ length places.now) }
    requires metadata_len { (length metadata.old ≡ plan.metadata) × (length «data».old ≡ plan.«data») }
    ensures { RestoredAll plan plan.blocks places.now flips.now
        metadata.old «data».old metadata.new «data».new }
{
    let blocks = plan.blocks;
    for b in 0..blocks {
        let i = b as usize;
        let n = wide(flips[i]);
        restore_block(plan, b, places, n, metadata, data);
    }
}
