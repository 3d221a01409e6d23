// A claim about a block of a page: the record, the page's length and the block number, then the claim itself.
ghost use Rattle.std.specs.Prelude.{◌≡◌, ◌<◌};
ghost use Rattle.replies.specs.Replies.{verdict_number};
ghost use Rattle.layout_plan.specs.Record.{words_of};
ghost use Rattle.page_theory.specs.Calls.{claim_ended, claim_in, claim_for, claim_of};
ghost use Rattle.page_plan.specs.Plans.{Planned, Ready, Sound};

use block_claim::is_right;
use layout::check_layout;
use layout_plan::{Layout, Plan, block_shape, block_start, plan_of};
use page_plan::block_reply;
use replies::Refusal;

// The answer to a wrong claim.
fn wrong() -> Result<(), Refusal>
    ensures { verdict_number result ≡ 10 }
{
    Err(Refusal::ClaimWrong)
}

// Answers to a claim about a block of a page of the right length.
fn claim_lent(plan: Plan, page: &[u8], block: u16, claims: &[u16]) -> Result<(), Refusal>
    requires { (Ready plan page.now) × (block < plan.blocks) }
    ensures { claim_ended (verdict_number result) ≡ claim_in plan page.now block claims.now }
{
    let shape = block_shape(plan, block);
    let position = block_start(plan, block);
    if is_right(shape, plan.mark, page, position, claims) {
        return Ok(());
    }
    wrong()
}

// Answers to a claim under the plan of an accepted layout.
pub fn claim_in(plan: Plan, page: &[u8], block: u64, claims: &[u16]) -> Result<(), Refusal>
    requires { Planned plan }
    ensures { claim_ended (verdict_number result) ≡ claim_in plan page.now block claims.now }
{
    block_reply(plan, page.len(), block)?;
    claim_lent(plan, page, block as u16, claims)
}

// Claimed locations of one block of a page under the answer to a layout, whatever names it.
pub fn claim_for(
    answer: Result<Layout, layout::Refusal>,
    page: &[u8],
    block: u64,
    claims: &[u16],
) -> Result<(), Refusal>
    requires { Sound answer }
    ensures { claim_ended (verdict_number result) ≡ claim_for answer page.now block claims.now }
{
    let layout = answer?;
    claim_in(plan_of(layout), page, block, claims)
}

// Are these error locations, reported by a hardware locator, right?
pub fn check_claim(
    edition: u64,
    words: &[u8],
    page: &[u8],
    block: u64,
    claims: &[u16],
) -> Result<(), Refusal>
    ensures { claim_ended (verdict_number result) ≡ claim_of (words_of edition words.now) page.now block claims.now }
{
    claim_for(check_layout(edition, words), page, block, claims)
}
