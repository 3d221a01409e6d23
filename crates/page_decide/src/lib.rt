// What becomes of a block of a page (document 01, "Replies": a block with a codeword within t flips is repaired; document 02, E1: one
// with none is erased where it has at most t zeros; any other is ruined).
//
//   damaged::block_remainder  the remainder of a block
//   damaged::scan_page        the first damaged block of a page, whose remainder is not zero
//   damaged::next_damaged     the next one
//   decide::decide_block      decides a damaged block, with tables that serve it
//   decide::decide_lent       the same by itself, with lent tables, which it fills
//   decide::decide_alone      the same with tables of its own
//   decide::apart             whether a damaged block is block 0 with another field than the later ones
//   decide::fill_serving      fills lent tables, which then serve the blocks from which on all have one field
//
// A block's outcome (crate `block_outcome`) depends on its shape and its remainder. So what was decided last goes on with the calls: a
// block with the shape and the remainder of the last decided one is not decoded again. Its zeros are counted all the same.
// Nothing is written to what a caller lent; looking, taking and judging go on from here.
//
// specs/ has what the steps promise (Scanning, Deciding); proofs/ the laws: Remainders (what the remainder of a block says of it),
// Scanning (looking for the first damaged block), Deciding.
#![tactic(auto)]

pub mod damaged;
pub mod decide;

use decoder::Found;
use remainder::Register;

// A block that was looked at, with its remainder and, if `known`, that of the next one; the number of blocks where there is none.
#[derive(Clone, Copy)]
pub struct Scan {
    pub block: u16,
    pub remainder: Register,
    pub known: bool,
    pub next: Register,
}

// A block that was decided, if `known`: whether it is one of the first, which share a shape, its remainder, what was found for it, and its
// count.
#[derive(Clone, Copy)]
pub struct Decided {
    pub known: bool,
    pub first: bool,
    pub remainder: Register,
    pub found: Found,
    pub count: u8,
}
