// Claimed error locations of one block of a page (document 01, "Claim").
//
//   check_claim     are these error locations, reported by a hardware locator, right?
//
// The call takes the layout record, the page and the list as they are, of any length, and asks nothing of its caller. What it answers
// is one definition, `claim_of` of the crate `page_theory`, specs/Calls.antt. claim.rt looks at the record, the page's length and the
// block number; the crate `block_claim` at the claim.
#![tactic(auto)]

mod claim;

pub use claim::{check_claim, claim_for, claim_in};
