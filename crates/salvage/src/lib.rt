// The ruined blocks of a page of which the other blocks are saved. A block is ruined where its count says so.
//
//   each_ruined   calls for each ruined block
//   covered       the page with ones in place of every ruined block
//   are_same      whether the other blocks have the same counts twice
//   put_all       the messages of the ruined blocks: their bits as they stand in the page, or ones
//   place_of      where the message of a block lies in the payload, metadata followed by data
//   put_list      the list of the ruined blocks: where the message of each lies in the files, and what stands there
#![tactic(auto)]

mod listing;

ghost use Rattle.std.specs.Prelude.{true, ◌≡◌, ◌<◌};
ghost use Rattle.mark.specs.Mark.{InStream};

use layout_plan::Plan;
pub use listing::put_list;
use mark::Mark;
use page_runs::read::copy_out;
use page_runs::write::fill_ones;
use read_totals::RUINED;

// The message of a block, as bits of the payload.
#[derive(Drop)]
pub struct Place {
    pub at: u64,
    pub bits: u64,
}

pub fn place_of(plan: Plan, b: u16) -> Place {
    let first = plan.first;
    let later = plan.later;
    if b == 0 {
        return Place {
            at: 0,
            bits: first.message as u64,
        };
    }
    Place {
        at: text::plus(
            first.message as u64,
            text::times(later.message as u64, b as u32 - 1),
        ),
        bits: later.message as u64,
    }
}

// Whether n bits of the stream from a position on, and the mark, lie in a page.
fn lies_in(mark: Mark, page: &[u8], start: usize, n: usize) -> bool
    requires { (start < 1125899906842624) × (n < 4294967296) }
    ensures { result ≡ true → InStream mark page.now start n }
{
    let offset = mark.offset as usize;
    let length = mark.length as usize;
    let size = page.len();
    size <= 65536 && offset + length <= size && start + n + 8 * length <= 8 * size
}

// Calls for each block of a page that is ruined by its count.
pub fn each_ruined<F: FnMut(u16)>(plan: Plan, counts: &[u8], mut visit: F)
    requires { F.IsAlwaysCallable visit }
{
    for (b, count) in (0..plan.blocks).zip(counts) {
        if *count == RUINED {
            visit(b);
        }
    }
}

// Writes ones over block b.
fn cover(plan: Plan, page: &mut [u8], b: u16) {
    let start = layout_plan::block_start(plan, b);
    let n = layout_plan::block_covered(plan, b);
    if lies_in(plan.mark, page, start, n) {
        fill_ones(plan.mark, page, start, n);
    }
}

// Puts a page into a buffer, with ones in place of the ruined blocks.
pub fn covered(plan: Plan, page: &[u8], work: &mut [u8], counts: &[u8]) {
    if work.len() == page.len() {
        work.copy_from_slice(page);
        each_ruined(plan, counts, |b| cover(plan, work, b));
    }
}

// Puts the message of block b: its bits in the page that is given, or ones.
fn put(plan: Plan, raw: Option<&[u8]>, metadata: &mut [u8], data: &mut [u8], b: u16) {
    let place = place_of(plan, b);
    let (at, n) = (place.at as usize, place.bits as usize);
    if 8388608 < at || 8388608 < n || 256 < metadata.len() || 65536 < data.len() {
        return;
    }
    if 8 * (metadata.len() + data.len()) < at + n {
        return;
    }
    let Some(page) = raw else {
        payload::fill(metadata, data, at, n);
        return;
    };
    let start = layout_plan::block_start(plan, b);
    if lies_in(plan.mark, page, start, n) {
        copy_out(plan.mark, page, start, metadata, data, at, n);
    }
}

// Puts the messages of the ruined blocks: their bits in the page that is given, or ones.
pub fn put_all(
    plan: Plan,
    raw: Option<&[u8]>,
    metadata: &mut [u8],
    data: &mut [u8],
    counts: &[u8],
) {
    each_ruined(plan, counts, |b| put(plan, raw, metadata, data, b));
}

// Whether all blocks that are not ruined have the same counts twice.
pub fn are_same(counts: &[u8], again: &[u8]) -> bool {
    let mut both = counts.iter().zip(again);
    both.all(|(count, again)| *count == RUINED || *count == *again)
}
