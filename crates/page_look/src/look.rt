// Looking at a page: the counts of its blocks.
ghost use Rattle.std.specs.Prelude.{◌≡◌, ◌<◌, length, eqb};
ghost use Rattle.replies.specs.Replies.{verdict_number, verdict_block};
ghost use Rattle.layout_plan.specs.Record.{words_of};
ghost use Rattle.page_theory.specs.Calls.{look_ended, look_reply, look_in, look_for, look_of};
ghost use Rattle.page_plan.specs.Plans.{Planned, Ready, Sound};
ghost use Rattle.page_counts.specs.Looking.{Pending};

use layout::check_layout;
use layout_plan::{Layout, Plan, plan_of};
use page_counts::{clear, count_damaged, first_ruined};
use page_decide::Scan;
use page_decide::damaged::scan_page;
use replies::Refusal;

// Whether a page has the length of a plan.
fn page_fits(plan: Plan, page: usize) -> bool
    ensures { result ≡ eqb page plan.size }
{
    let size = plan.size as usize;
    page == size
}

// Whether there is a count for each block of a plan, and no more.
fn counts_fit(plan: Plan, counts: usize) -> bool
    ensures { result ≡ eqb counts plan.blocks }
{
    let blocks = plan.blocks as usize;
    counts == blocks
}

// What the lengths that are lent to a look are refused for.
fn look_reply(plan: Plan, page: usize, counts: usize) -> Result<(), Refusal>
    ensures { verdict_number result ≡ look_reply plan page counts }
{
    if !page_fits(plan, page) {
        return Err(Refusal::PageLength);
    }
    if !counts_fit(plan, counts) {
        return Err(Refusal::BufferLength);
    }
    Ok(())
}

// The answer to a page whose lowest ruined block is known.
fn ruined(block: u16) -> Result<(), Refusal>
    ensures { (verdict_number result ≡ 9) × (verdict_block result ≡ block) }
{
    Err(Refusal::Uncorrectable(block))
}

// Looks at a page of which `scan` is the first damaged block; the counts before it are 0.
fn look_damaged(
    plan: Plan,
    page: &[u8],
    scan: Scan,
    table: &[u8],
    counts: &mut [u8],
) -> Result<(), Refusal>
    requires pending { Pending plan page.now table.now scan counts.old }
    requires block_lt_blocks { scan.block < plan.blocks }
    ensures { look_ended (verdict_number result) (verdict_block result) counts.new ≡ look_in plan page.now counts.old }
{
    count_damaged(plan, page, scan, table, counts);
    match first_ruined(counts) {
        Some(b) => ruined(b as u16),
        None => Ok(()),
    }
}

// Looks at a page where the lengths are right.
fn look_lent(plan: Plan, page: &[u8], counts: &mut [u8]) -> Result<(), Refusal>
    requires { (Ready plan page.now) × (length counts.old ≡ plan.blocks) }
    ensures { look_ended (verdict_number result) (verdict_block result) counts.new ≡ look_in plan page.now counts.old }
{
    let mut table = [0u8; 36864];
    let scan = scan_page(plan, page, &mut table);
    let block = scan.block;
    clear(counts);
    if block == plan.blocks {
        return Ok(());
    }
    look_damaged(plan, page, scan, &table, counts)
}

// Looks at a page under the plan of an accepted layout.
pub fn look_in(plan: Plan, page: &[u8], counts: &mut [u8]) -> Result<(), Refusal>
    requires { Planned plan }
    ensures { look_ended (verdict_number result) (verdict_block result) counts.new ≡ look_in plan page.now counts.old }
{
    look_reply(plan, page.len(), counts.len())?;
    look_lent(plan, page, counts)
}

// Looks at a page under the answer to a layout, whatever names it.
pub fn look_for(
    answer: Result<Layout, layout::Refusal>,
    page: &[u8],
    counts: &mut [u8],
) -> Result<(), Refusal>
    requires { Sound answer }
    ensures { look_ended (verdict_number result) (verdict_block result) counts.new ≡ look_for answer page.now counts.old }
{
    let layout = answer?;
    look_in(plan_of(layout), page, counts)
}

// Looks at a page: the counts of all blocks. `words` is the layout record.
pub fn look_page(edition: u64, words: &[u8], page: &[u8], counts: &mut [u8]) -> Result<(), Refusal>
    ensures { look_ended (verdict_number result) (verdict_block result) counts.new
        ≡ look_of (words_of edition words.now) page.now counts.old }
{
    look_for(check_layout(edition, words), page, counts)
}
