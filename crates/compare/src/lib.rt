// Comparing two readings of one page under one layout (document 02, E10): which blocks are getting worse, and where the pages differ.
//
//   compare_pages      looks at both pages: the counts of all blocks, twice
//   next_difference    the next position at which the pages differ outside the mark
//
// Each call takes anything and asks nothing of its caller. A ruined block is no refusal here: its count says so, and reply 9 is never given.
// PAGE_SIZE above 16,384 is 6. No block is decided twice in one comparison. What is shown of a block by its two counts is in crate `changes`.
//
// specs/ has the definitions (Calls), the replies as lists of rules (ReplyRules) and what the steps ask for (Steps); proofs/ the laws: Ends (how the
// calls end), ReplyRules.
#![tactic(auto)]

mod pages;

pub use pages::{compare_pages, next_difference};
