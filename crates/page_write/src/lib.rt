// Writing a page from metadata and data (document 01, "The job" and "Layout words").
//
//   write_page      writes a page
//
// The call takes the layout record and buffers of any length, and asks nothing of its caller. What it answers and leaves is one
// definition, `write_of` of the crate `page_theory`, specs/Calls.antt. The steps:
// 1. `layout` answers to the record and works out the plan: how many blocks, what each is made of, where each starts.
// 2. lengths.rt looks at the lengths. A refusal ends the call before anything is written.
// 3. write.rt puts block after block, message, parity and ones into the pads, then ones into the tail; the factory's mark stays as lent. One
//    table of a generator is made after the other in the same place: that of block 0, then that of the later blocks.
#![tactic(auto)]

mod lengths;
mod write;

pub use write::{write_for, write_in, write_page};
