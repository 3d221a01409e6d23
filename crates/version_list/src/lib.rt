// The list of numbered layouts that a store keeps (document 02, E11), as a plain list and in the first places of an array of 32.
//
//   held         how many layouts the places hold
//   index_of     the place of a layout
//   close_gap    moves the layouts behind a place one place forward
//
// specs/Plain.antt has the plain list beside the 16 versions in use, and each call of the store as a function of it; proofs/Steps.antt what each
// comes to, case by case. The crate `store` has the calls.
#![tactic(auto)]

mod places;

use layout_plan::Plan;
pub use places::{close_gap, held, index_of};

// A layout with its version number, and the edition that it was stored under.
#[derive(Clone, Copy)]
pub struct Numbered {
    pub number: u16,
    pub edition: u64,
    pub plan: Plan,
}
