// Bits written to pages: words put at any position, every other bit left as it was. What would lie past the end is lost.
//
//   write   flip_bit, put_number: one bit, or bits that stand in one byte
//   copy    copy_bits: n bits from a position of one slice to a position of another
//   fill    fill_ones: n ones from a position on
//
// Each function works on slices and positions. Its contract gives the whole slice afterwards, by equality with `placed` of crate
// `bits`, whose laws stand there; proofs/Parts has those of a word put inside one byte, and of bytes put one after the other.
#![tactic(auto)]

pub mod copy;
pub mod fill;
pub mod write;
