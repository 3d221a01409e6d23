// The steps of the call `explain_block`: the lengths and the block number, the remainder, the decided block, the list.
ghost use Rattle.std.specs.Prelude.{◌≡◌, true, false, ◌≤◌, ◌<◌, length, Ok};
ghost use Rattle.layout_plan.specs.Plan.{level};
ghost use Rattle.layout_plan.specs.Record.{words_of};
ghost use Rattle.page_plan.specs.Plans.{Planned, Ready};
ghost use Rattle.page_decide.specs.Scanning.{Left};
ghost use Rattle.page_decide.specs.Deciding.{BlockDecided};
ghost use Rattle.page_explain.specs.Explain.{explained, explain_at, explain_asked, explain_in, explain_of};

use crate::BlockFinding;
use crate::flips::list_flips;
use explain::{About, Why, why_refused};
use layout::check_layout;
use layout_plan::{Plan, block_shape, plan_of};
use page_decide::decide::decide_alone;
use page_decide::{Decided, Scan};
use page_judge::own_remainder;
use remainder::coefficients::is_zero;
use replies::Refusal;

// A count as a number of exponents.
fn wide(count: u8) -> usize
    ensures { result ≡ count }
{
    count as usize
}

// Whether a count is that of a ruined block.
fn is_ruined(count: u8) -> bool
    ensures { (result ≡ true → count ≡ 255) × (result ≡ false → count ≡ 255 → ⊥) }
{
    count == 255
}

// Explains a decided block of the level t.
fn explain_decided(
    plan: Plan,
    page: &[u8],
    block: u16,
    decided: Decided,
    list: &mut [u32],
) -> BlockFinding
    requires ready { (Ready plan page.now) × (block < plan.blocks) × (BlockDecided plan page.now block decided) }
    requires block_in_bounds { level plan block ≤ length list.old }
    ensures { explained (Ok result) list.new ≡ explain_at plan page.now block list.old }
{
    let shape = block_shape(plan, block);
    let t = shape.level;
    let count = decided.count;
    let found = decided.found;
    if is_ruined(count) {
        return BlockFinding::Ruined {
            block: block,
            level: t,
        };
    }
    if 128 <= count {
        return BlockFinding::Erased {
            zeros: count - 128,
            level: t,
        };
    }
    list_flips(plan, block, found, wide(count), list);
    BlockFinding::Flips {
        count: count,
        level: t,
    }
}

// Explains a damaged block.
fn explain_damaged(plan: Plan, page: &[u8], scan: Scan, list: &mut [u32]) -> BlockFinding
    requires { (Ready plan page.now) × (Left plan page.now scan) × (level plan scan.block ≤ length list.old) }
    ensures { explained (Ok result) list.new ≡ explain_at plan page.now scan.block list.old }
{
    let block = scan.block;
    let decided = decide_alone(plan, page, scan);
    explain_decided(plan, page, block, decided, list)
}

// Explains a block of a page of the right length, with a list of enough places.
fn explain_lent(plan: Plan, page: &[u8], block: u16, list: &mut [u32]) -> BlockFinding
    requires { (Ready plan page.now) × (block < plan.blocks) × (level plan block ≤ length list.old) }
    ensures { explained (Ok result) list.new ≡ explain_at plan page.now block list.old }
{
    let remainder = own_remainder(plan, page, block);
    let clean = is_zero(remainder);
    if clean {
        let shape = block_shape(plan, block);
        return BlockFinding::Flips {
            count: 0,
            level: shape.level,
        };
    }
    let scan = Scan {
        block: block,
        remainder: remainder,
        known: false,
        next: remainder,
    };
    explain_damaged(plan, page, scan, list)
}

// Explains a block of a page of the right length. 6: a list with fewer than t places.
fn explain_asked(plan: Plan, page: &[u8], block: u16, list: &mut [u32]) -> Result<BlockFinding, Why>
    requires { (Ready plan page.now) × (block < plan.blocks) }
    ensures { explained result list.new ≡ explain_asked plan page.now block list.old }
{
    let shape = block_shape(plan, block);
    let t = shape.level as usize;
    let places = list.len();
    if places < t {
        return Err(Why {
            refusal: Refusal::BufferLength,
            about: About::List,
            found: places as u64,
            limit: t as u64,
        });
    }
    Ok(explain_lent(plan, page, block, list))
}

// Explains a block under the plan of an accepted layout. 5: a page of another length. 7: a block that the page does not have.
fn explain_in(plan: Plan, page: &[u8], block: u64, list: &mut [u32]) -> Result<BlockFinding, Why>
    requires { Planned plan }
    ensures { explained result list.new ≡ explain_in plan page.now block list.old }
{
    let size = plan.size as usize;
    let lent = page.len();
    if lent != size {
        return Err(Why {
            refusal: Refusal::PageLength,
            about: About::Lent,
            found: lent as u64,
            limit: size as u64,
        });
    }
    let blocks = plan.blocks as u64;
    if blocks <= block {
        return Err(Why {
            refusal: Refusal::OutOfRange,
            about: About::Block,
            found: block,
            limit: blocks,
        });
    }
    explain_asked(plan, page, block as u16, list)
}

// Explains one block of a page. The flips are listed at the start of `list`, which has at least t places, as page positions. `words` is the
// layout record.
pub fn explain_block(
    edition: u64,
    words: &[u8],
    page: &[u8],
    block: u64,
    list: &mut [u32],
) -> Result<BlockFinding, Why>
    ensures { explained result list.new
        ≡ explain_of (words_of edition words.now) page.now block list.old }
{
    match check_layout(edition, words) {
        Ok(layout) => explain_in(plan_of(layout), page, block, list),
        Err(refusal) => Err(why_refused(edition, words.len(), refusal)),
    }
}
