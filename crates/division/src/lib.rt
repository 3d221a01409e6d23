// The remainder of a run of bits by the generator of a level (document 01, "The code" and "Remainder").
//
// A message is divided with the mt zeros of its parity after it from the start: a register of crate `remainder` has the parity of the bits
// so far, and the highest power comes first. The remainder of a block is the parity of its message plus its last mt bits. A message can be
// fed in one piece or in several: the parity is a fold over the bits.
//
//   runs    the remainder of a run by the table of a level, and the parity of a message and of more of it
//   feed    runs of bits of a byte slice fed by a table: the odd bits at the start in one step, and words of 64 bits
//   pairs   two runs side by side
//   words   words of a run of bits, as they are read
//
// The register is moved up so that it fills four, ten or fourteen words, and moved down at the end. What a remainder is stands in the
// crates `remainder` and `code`, what a table is in `division_table`; the steps and the laws are in `division_steps`, and
// `bitwise_division` does the same bit by bit, with no table.
#![tactic(auto)]

mod feed;
mod pairs;
pub mod runs;
mod words;

use remainder::Register;

// The registers of two runs that are divided side by side.
#[derive(Clone, Copy)]
pub struct Pair {
    pub first: Register,
    pub second: Register,
}
