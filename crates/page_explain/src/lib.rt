// Why a block of a page was answered as it was (document 02, E2).
//
//   explain_block    the flips of a block, each as its page position; or that it is erased, with its zeros; or that it is ruined; or why the call
//                    is refused, with the two numbers that were compared
//
// The call takes the layout record, the page and the list as slices of any length and asks nothing of its caller. The steps are those of
// `page_judge`: the remainder of the block by a table of its own, and where it is not zero `page_decide` decides the block. flips.rt then turns
// the located exponents into page positions, in the order in which locating lists them: from the highest down, so that the positions ascend.
// specs/Explain.antt says what is answered and what is left in the list; proofs/Explained.antt shows that a decided block is answered so, and
// proofs/Truth.antt that the list has each covered bit in which page and codeword differ, and no other.
#![tactic(auto)]

mod flips;
mod steps;

pub use steps::explain_block;

// What is found of one block: how many of its covered bits are flipped, and t; the zeros of an erased block, and t; or the number of a ruined
// block, and t.
#[derive(Drop)]
pub enum BlockFinding {
    Flips { count: u8, level: u16 },
    Erased { zeros: u8, level: u16 },
    Ruined { block: u16, level: u16 },
}
