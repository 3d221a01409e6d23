// Judging one block of a page (document 01, "One block").
//
//   judge_block      the flip count of one block
//   own_remainder    the remainder of one block, by a table of its own: the first step of explaining a block too (crate page_explain)
//
// The call takes the layout record and the page as bytes of any length and asks nothing of its caller. What it answers is one
// definition, `judge_of` of the crate `page_theory`, specs/Calls.antt: it depends on the block number, the layout words, the page's length
// and that block's own bits. judge.rt works out the remainder of the block by a table of its own; zero is no flip, and else `page_decide`
// decides the block: its count, how many of its covered bits are flipped or 128 plus the zeros of an erased block, or the refusal that names
// a ruined block.
#![tactic(auto)]

mod judge;

pub use judge::{judge_block, judge_for, judge_in, own_remainder};
