// Demand 3 of the running code (document 01, "Damage"; document 02, E6): a page that is written and then damaged within its levels reads
// back: looking at it, and then taking it.
//
//   round_trip     writes a page, flips the bits that a lent mask names, looks at the page, and takes it
//
// It calls the public calls, nothing of their insides, and asks nothing of its caller. Its contract, specs/Round.antt, promises the
// payload and each block's number of flipped bits. The steps:
// 1. round.rt has the page written.
// 2. mask.rt counts the covered bits that the mask names in each block. More than t in one, or a mask of another length than the
//    page, ends the call.
// 3. mask.rt flips every bit that the mask names, those of the tail and of the factory's mark included.
// 4. round.rt has the page looked at, and then taken.
#![tactic(auto)]

mod mask;
mod round;

pub use round::round_trip;

// Why a page was not read back: the reply of the call that refused, or a mask that is not allowed.
// By hand: the reply as a number, since the definition `round_in` of specs/Round.antt says it so.
#[derive(Clone, Copy)]
pub enum Failure {
    Refused(u8),
    Mask,
}
