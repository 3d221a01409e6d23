// Page calls that name a version of a store (document 02, E11).
//
//   write_version    writes a page
//   look_version     looks at a page: its counts
//   take_version     takes metadata and data out of a page
//   judge_version    judges one block
//   claim_version    checks claimed locations
//
// Each looks the version up and works with the plan that the store keeps: no record is read, and the sums that it uses are the kept ones.
// An unknown version is reply 7, before everything else. What a call answers and leaves is that of the call with the edition and the record
// that the version was stored with (crate `store_runs`, specs/Runs.antt `version_of`, proofs/Demands.antt).
//
// Every store that the calls of the crate `store` make keeps the plans of accepted layouts (proofs/Keeping.antt), but the type does not
// say so. So each call first compares the kept numbers with each other (crate `plan_test`). A plan that does not hold together, which no
// such store keeps, is reply 7 too (specs/Tested.antt).
// By hand: no invariant of `Store` says so, since `tested` and the wrong program `untested_plan` speak of the other stores.
#![tactic(auto, using(crate::proofs::Versions::bare), unfolding(replies::specs::Replies::verdict_number, replies::specs::Replies::verdict_block, replies::specs::Replies::block, layout::specs::Acceptance::refusal_of, layout::specs::Acceptance::refusal_reply, layout_plan::specs::Plan::plan_of, page_theory::specs::Calls::write_for, page_theory::specs::Calls::look_for, page_theory::specs::Calls::take_for, page_theory::specs::Calls::judge_for, page_theory::specs::Calls::claim_for, page_judge::specs::Answers::judge_flips, crate::specs::Tested::plan_answer))]

ghost use Rattle.std.specs.Prelude.{◌≡◌, IfOk, IfErr};
ghost use Rattle.layout.specs.declared.Refusal.TheVariants.{Range};
ghost use Rattle.page_theory.specs.Calls.{write_ended, write_for, look_ended, look_for, take_ended, take_for, judge_ended, judge_for, claim_ended, claim_for};
ghost use Rattle.replies.specs.Replies.{verdict_number, verdict_block};
ghost use Rattle.page_judge.specs.Answers.{judge_flips};
ghost use Rattle.store.specs.Answers.{listed};
ghost use Rattle.store_runs.specs.Runs.{version_of};
ghost use Rattle.page_plan.specs.Plans.{Planned};
ghost use Rattle.store_pages.specs.Tested.{tested, plan_answer};

use layout_plan::Plan;
use page_claim::claim_in;
use page_judge::judge_in;
use page_look::look_in;
use page_take::take_in;
use page_write::write_in;
use plan_test::holds_together;
use replies::Refusal;
use store::Store;

// Looks the plan of a version up and tests it.
fn find_plan(store: &Store, version: u64) -> Result<Plan, layout::Refusal>
    ensures eq { plan_answer result ≡ tested (version_of (listed store.now) version) }
    ensures sound { IfOk result (λ q. Planned q) }
    ensures range { IfErr result (λ r. r ≡ Range) }
{
    let layout = store.find_version(version).ok_or(layout::Refusal::Range)?;
    let plan = layout.plan;
    if holds_together(plan) {
        return Ok(plan);
    }
    Err(layout::Refusal::Range)
}

// Writes a page from metadata and data under a version.
pub fn write_version(
    store: &Store,
    version: u64,
    metadata: &[u8],
    data: &[u8],
    page: &mut [u8],
) -> Result<(), Refusal>
    ensures { write_ended (verdict_number result) (verdict_block result) page.new
        ≡ write_for (tested (version_of (listed store.now) version)) metadata.now «data».now page.old }
{
    write_in(find_plan(store, version)?, metadata, data, page)
}

// Looks at a page under a version: the counts of all blocks.
pub fn look_version(
    store: &Store,
    version: u64,
    page: &[u8],
    counts: &mut [u8],
) -> Result<(), Refusal>
    ensures { look_ended (verdict_number result) (verdict_block result) counts.new
        ≡ look_for (tested (version_of (listed store.now) version)) page.now counts.old }
{
    look_in(find_plan(store, version)?, page, counts)
}

// Takes metadata and data out of a page under a version.
pub fn take_version(
    store: &Store,
    version: u64,
    page: &[u8],
    metadata: &mut [u8],
    data: &mut [u8],
) -> Result<(), Refusal>
    ensures { take_ended (verdict_number result) (verdict_block result) metadata.new «data».new
        ≡ take_for (tested (version_of (listed store.now) version)) page.now metadata.old «data».old }
{
    take_in(find_plan(store, version)?, page, metadata, data)
}

// Judges one block of a page under a version: its count.
pub fn judge_version(store: &Store, version: u64, page: &[u8], block: u64) -> Result<u8, Refusal>
    ensures { judge_ended (verdict_number result) (verdict_block result) (judge_flips result) ≡ judge_for (tested (version_of (listed store.now) version)) page.now block }
{
    judge_in(find_plan(store, version)?, page, block)
}

// Checks claimed locations of one block of a page under a version.
pub fn claim_version(
    store: &Store,
    version: u64,
    page: &[u8],
    block: u64,
    claims: &[u16],
) -> Result<(), Refusal>
    ensures { claim_ended (verdict_number result) ≡ claim_for (tested (version_of (listed store.now) version)) page.now block claims.now }
{
    claim_in(find_plan(store, version)?, page, block, claims)
}
