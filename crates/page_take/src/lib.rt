// Taking metadata and data out of a page (document 02, E6).
//
//   take_page      takes a page
//
// The call takes the layout record and the page as bytes of any length and asks nothing of its caller. What it answers and leaves is
// one definition, `take_of` of the crate `page_theory`, specs/Calls.antt. The steps:
// 1. `page_decide` works out the remainders of the blocks up to the first that is not zero. On most pages there is none: `page_copy`
//    copies the messages out, and nothing more is needed.
// 2. Otherwise `page_keep` decides the damaged blocks, and the first ruined block ends the call; nothing has been written then.
// 3. `page_copy` copies the messages out, repaired.
// take.rt puts the steps together: every block is decided before any byte is written. A refusal leaves what was lent as it was; that of a
// page with a ruined block names its lowest one.
//
// proofs/Ends.antt has the laws.
#![tactic(auto)]

mod take;

pub use take::{take_for, take_in, take_page};
