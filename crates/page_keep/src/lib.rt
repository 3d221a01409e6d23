// Deciding the damaged blocks of a page, each once and in ascending order, with what repairs each kept.
//
//   keep_damaged    decides the damaged blocks of a page, up to the first that is ruined, which it answers with
//
// The exponents that repair a block are kept in a table with room for 64 exponents a block; their numbers are kept beside it, and for an
// erased block 128 plus its zeros. Blocks that are not damaged have none. What becomes of one block is said by `page_decide`.
//
// specs/Keeping.antt has what the steps promise; proofs/Keeping.antt the laws.
#![tactic(auto)]

mod keep;

pub use keep::keep_damaged;
