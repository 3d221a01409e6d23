// Explanations as lines of text (document 02, E2): what the proved calls explain_layout, explain_block and explain_bit
// answer, put into words.
//
//   rules.rt      the rule that a layout breaks, what breaks it, the two numbers compared, and what can be done
//   refusals.rt   why a question about a layout or a block is refused
//   places.rt     the flips of a block, a line each
//   verdicts.rt   what became of a block, and what can be done
//
// The last line of an explanation begins with `next: ` where there is something to do.
#![tactic(auto)]

mod places;
mod refusals;
mod rules;
mod verdicts;

pub use places::flips;
pub use refusals::{accepted, refused};
pub use verdicts::{advice, erased, flipped, ruined};
