// Copying metadata and data out of a page whose blocks are decided.
//
//   copy_clean      of a page of which no block is damaged
//   copy_decided    of a page of which every block is decided: the exponents that repair each are kept in a table
//
// Both leave what taking that page leaves (`take_in` of the crate `page_theory`, specs/Calls.antt). copy.rt copies the messages out as
// they stand in the page, flips the kept exponents that lie in a message, and fills the messages of erased blocks with ones.
//
// specs/Copying.antt has what these steps promise; proofs/ the laws: Messages, Flipping, Ends (metadata and data as a whole).
#![tactic(auto)]

mod copy;

ghost use Rattle.std.specs.Prelude.{◌≡◌, ℕ, ◌*◌, ◌≤◌, ◌<◌, length};
ghost use Rattle.page_theory.specs.Calls.{take_ended, take_in};
ghost use Rattle.page_plan.specs.Plans.{Ready};
ghost use Rattle.page_decide.specs.Scanning.{remainder_at};
ghost use Rattle.page_keep.specs.Keeping.{AllDecided};

use copy::{copy_messages, restore_blocks};
use layout_plan::Plan;

// Copies metadata and data out of a page of which no block is damaged.
pub fn copy_clean(plan: Plan, page: &[u8], metadata: &mut [u8], data: &mut [u8])
    requires ready { (Ready plan page.now) × (length metadata.old ≡ plan.metadata) × (length «data».old ≡ plan.«data») }
    requires by_index { (b : ℕ) → b < plan.blocks → remainder_at plan page.now b ≡ 0 }
    ensures { take_ended 0 0 metadata.new «data».new
        ≡ take_in plan page.now metadata.old «data».old }
{
    copy_messages(plan, page, metadata, data);
}

// Copies metadata and data out of a page of which every block is decided.
pub fn copy_decided(
    plan: Plan,
    page: &[u8],
    places: &[u16],
    flips: &[u8; 256],
    metadata: &mut [u8],
    data: &mut [u8],
)
    requires ready { (Ready plan page.now) × (length metadata.old ≡ plan.metadata) × (length «data».old ≡ plan.«data») }
    requires all_decided { (AllDecided plan page.now plan.blocks places.now flips.now) × (64 * plan.blocks ≤ length places.now) }
    ensures { take_ended 0 0 metadata.new «data».new
        ≡ take_in plan page.now metadata.old «data».old }
{
    copy_messages(plan, page, metadata, data);
    restore_blocks(plan, places, flips, metadata, data);
}
