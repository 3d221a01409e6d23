// Taking metadata and data out of a page: every block is decided before any byte is written.
ghost use Rattle.std.specs.Prelude.{◌≡◌, ◌*◌, ◌≤◌, ◌<◌, length};
ghost use Rattle.division_table.specs.Table.{Table};
ghost use Rattle.replies.specs.Replies.{verdict_number, verdict_block};
ghost use Rattle.layout_plan.specs.Record.{words_of};
ghost use Rattle.page_theory.specs.Calls.{take_ended, take_reply, take_in, take_for, take_of};
ghost use Rattle.page_plan.specs.Plans.{Planned, Ready, Sound};
ghost use Rattle.page_decide.specs.Scanning.{Scanned};

use layout::check_layout;
use layout_plan::{Layout, Plan, plan_of};
use page_copy::{copy_clean, copy_decided};
use page_decide::Scan;
use page_decide::damaged::scan_page;
use page_keep::keep_damaged;
use replies::Refusal;

// What the lengths that are lent to a take are refused for.
fn take_reply(plan: Plan, page: usize, metadata: usize, data: usize) -> Result<(), Refusal>
    ensures { verdict_number result ≡ take_reply plan page metadata «data» }
{
    if page != plan.size as usize {
        return Err(Refusal::PageLength);
    }
    if metadata != plan.metadata as usize {
        return Err(Refusal::BufferLength);
    }
    if data != plan.data as usize {
        return Err(Refusal::BufferLength);
    }
    Ok(())
}

// Takes a page of which `scan` is the first damaged block; `table` is that of the later blocks' generator. Every block has 64 of the places.
fn take_placed(
    plan: Plan,
    page: &[u8],
    scan: Scan,
    table: &[u8],
    places: &mut [u16],
    metadata: &mut [u8],
    data: &mut [u8],
) -> Result<(), Refusal>
    requires ready { (Ready plan page.now) × (length metadata.old ≡ plan.metadata) × (length «data».old ≡ plan.«data») }
    requires scanned { (Scanned plan page.now 0 scan) × (Table plan.later.field plan.later.level table.now) × (scan.block < plan.blocks)
        × (64 * plan.blocks ≤ length places.old) }
    ensures { take_ended (verdict_number result) (verdict_block result) metadata.new «data».new
        ≡ take_in plan page.now metadata.old «data».old }
{
    let mut flips = [0u8; 256];
    match keep_damaged(plan, page, scan, table, places, &mut flips) {
        Some(block) => Err(Refusal::Uncorrectable(block)),
        None => {
            copy_decided(plan, page, places, &flips, metadata, data);
            Ok(())
        }
    }
}

// The same for up to 8 blocks, with places for no more.
fn take_few(
    plan: Plan,
    page: &[u8],
    scan: Scan,
    table: &[u8],
    metadata: &mut [u8],
    data: &mut [u8],
) -> Result<(), Refusal>
    requires ready { (Ready plan page.now) × (length metadata.old ≡ plan.metadata) × (length «data».old ≡ plan.«data») }
    requires scanned { (Scanned plan page.now 0 scan) × (Table plan.later.field plan.later.level table.now) × (scan.block < plan.blocks)
        × (plan.blocks ≤ 8) }
    ensures { take_ended (verdict_number result) (verdict_block result) metadata.new «data».new
        ≡ take_in plan page.now metadata.old «data».old }
{
    let mut places = [0u16; 512];
    take_placed(plan, page, scan, table, &mut places, metadata, data)
}

// The same. The places are here, as many as the page may need, since only a damaged page needs them and clearing them takes time.
fn take_damaged(
    plan: Plan,
    page: &[u8],
    scan: Scan,
    table: &[u8],
    metadata: &mut [u8],
    data: &mut [u8],
) -> Result<(), Refusal>
    requires ready { (Ready plan page.now) × (length metadata.old ≡ plan.metadata) × (length «data».old ≡ plan.«data») }
    requires scanned { (Scanned plan page.now 0 scan) × (Table plan.later.field plan.later.level table.now) × (scan.block < plan.blocks) }
    ensures { take_ended (verdict_number result) (verdict_block result) metadata.new «data».new
        ≡ take_in plan page.now metadata.old «data».old }
{
    if plan.blocks <= 8 {
        return take_few(plan, page, scan, table, metadata, data);
    }
    let mut places = [0u16; 16384];
    take_placed(plan, page, scan, table, &mut places, metadata, data)
}

// Takes a page where the lengths are right.
fn take_lent(plan: Plan, page: &[u8], metadata: &mut [u8], data: &mut [u8]) -> Result<(), Refusal>
    requires { (Ready plan page.now) × (length metadata.old ≡ plan.metadata) × (length «data».old ≡ plan.«data») }
    ensures { take_ended (verdict_number result) (verdict_block result) metadata.new «data».new
        ≡ take_in plan page.now metadata.old «data».old }
{
    let mut table = [0u8; 36864];
    let scan = scan_page(plan, page, &mut table);
    let block = scan.block;
    if block == plan.blocks {
        copy_clean(plan, page, metadata, data);
        return Ok(());
    }
    take_damaged(plan, page, scan, &table, metadata, data)
}

// Takes a page under the plan of an accepted layout.
pub fn take_in(plan: Plan, page: &[u8], metadata: &mut [u8], data: &mut [u8]) -> Result<(), Refusal>
    requires { Planned plan }
    ensures { take_ended (verdict_number result) (verdict_block result) metadata.new «data».new
        ≡ take_in plan page.now metadata.old «data».old }
{
    take_reply(plan, page.len(), metadata.len(), data.len())?;
    take_lent(plan, page, metadata, data)
}

// Takes metadata and data out of a page under the answer to a layout, whatever names it.
pub fn take_for(
    answer: Result<Layout, layout::Refusal>,
    page: &[u8],
    metadata: &mut [u8],
    data: &mut [u8],
) -> Result<(), Refusal>
    requires { Sound answer }
    ensures { take_ended (verdict_number result) (verdict_block result) metadata.new «data».new
        ≡ take_for answer page.now metadata.old «data».old }
{
    let layout = answer?;
    take_in(plan_of(layout), page, metadata, data)
}

// Takes metadata and data out of a page. `words` is the layout record.
pub fn take_page(
    edition: u64,
    words: &[u8],
    page: &[u8],
    metadata: &mut [u8],
    data: &mut [u8],
) -> Result<(), Refusal>
    ensures { take_ended (verdict_number result) (verdict_block result) metadata.new «data».new
        ≡ take_of (words_of edition words.now) page.now metadata.old «data».old }
{
    take_for(check_layout(edition, words), page, metadata, data)
}
