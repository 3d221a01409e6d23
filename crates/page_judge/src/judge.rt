// Judging one block of a page.
ghost use Rattle.std.specs.Prelude.{◌≡◌, true, false, ◌<◌};
ghost use Rattle.code.specs.Register.{register};
ghost use Rattle.replies.specs.Replies.{verdict_number, verdict_block};
ghost use Rattle.layout_plan.specs.Record.{words_of};
ghost use Rattle.page_theory.specs.Calls.{judge_ended, judge_in, judge_for, judge_of};
ghost use Rattle.page_plan.specs.Plans.{Planned, Ready, Sound};
ghost use Rattle.page_decide.specs.Scanning.{remainder_at, Left};
ghost use Rattle.page_judge.specs.Answers.{judge_flips};

use division_table::make_table;
use layout::check_layout;
use layout_plan::{Layout, Plan, block_shape, plan_of};
use page_decide::Scan;
use page_decide::damaged::block_remainder;
use page_decide::decide::decide_alone;
use page_plan::block_reply;
use remainder::Register;
use remainder::coefficients::is_zero;
use replies::Refusal;

// The remainder of one block, by a table that is made for it alone.
pub fn own_remainder(plan: Plan, page: &[u8], block: u16) -> Register
    requires { (Ready plan page.now) × (block < plan.blocks) }
    ensures { register result.words ≡ remainder_at plan page.now block }
{
    let shape = block_shape(plan, block);
    let f = shape.field;
    let t = shape.level as usize;
    let mut table = [0u8; 36864];
    make_table(f, t, &mut table);
    block_remainder(plan, page, &table, block)
}

// Whether a count is that of a ruined block.
fn is_ruined(count: u8) -> bool
    ensures { (result ≡ true → count ≡ 255) × (result ≡ false → count ≡ 255 → ⊥) }
{
    count == 255
}

// The answer to a ruined block.
fn ruined(block: u16) -> Result<u8, Refusal>
    ensures { judge_ended (verdict_number result) (verdict_block result) (judge_flips result) ≡ judge_ended 9 block 0 }
{
    Err(Refusal::Uncorrectable(block))
}

// Judges a damaged block: its count, or that it is ruined.
fn judge_damaged(plan: Plan, page: &[u8], scan: Scan) -> Result<u8, Refusal>
    requires { (Ready plan page.now) × (Left plan page.now scan) }
    ensures { judge_ended (verdict_number result) (verdict_block result) (judge_flips result) ≡ judge_in plan page.now scan.block }
{
    let decided = decide_alone(plan, page, scan);
    let count = decided.count;
    let block = scan.block;
    if is_ruined(count) {
        return ruined(block);
    }
    Ok(count)
}

// Judges a block of a page of the right length.
fn judge_lent(plan: Plan, page: &[u8], block: u16) -> Result<u8, Refusal>
    requires { (Ready plan page.now) × (block < plan.blocks) }
    ensures { judge_ended (verdict_number result) (verdict_block result) (judge_flips result) ≡ judge_in plan page.now block }
{
    let remainder = own_remainder(plan, page, block);
    let clean = is_zero(remainder);
    if clean {
        return Ok(0);
    }
    let scan = Scan {
        block: block,
        remainder: remainder,
        known: false,
        next: remainder,
    };
    judge_damaged(plan, page, scan)
}

// Judges a block under the plan of an accepted layout.
pub fn judge_in(plan: Plan, page: &[u8], block: u64) -> Result<u8, Refusal>
    requires { Planned plan }
    ensures { judge_ended (verdict_number result) (verdict_block result) (judge_flips result) ≡ judge_in plan page.now block }
{
    block_reply(plan, page.len(), block)?;
    judge_lent(plan, page, block as u16)
}

// Judges one block of a page under the answer to a layout, whatever names it.
pub fn judge_for(
    answer: Result<Layout, layout::Refusal>,
    page: &[u8],
    block: u64,
) -> Result<u8, Refusal>
    requires { Sound answer }
    ensures { judge_ended (verdict_number result) (verdict_block result) (judge_flips result) ≡ judge_for answer page.now block }
{
    let layout = answer?;
    judge_in(plan_of(layout), page, block)
}

// Judges one block of a page: its flip count. `words` is the layout record.
pub fn judge_block(edition: u64, words: &[u8], page: &[u8], block: u64) -> Result<u8, Refusal>
    ensures { judge_ended (verdict_number result) (verdict_block result) (judge_flips result) ≡ judge_of (words_of edition words.now) page.now block }
{
    judge_for(check_layout(edition, words), page, block)
}
