// Looking at a page: the count of each block (document 02, E6).
//
//   look_page      looks at a page
//
// The call takes the layout record and the page as bytes of any length and asks nothing of its caller. What it answers and leaves is
// one definition, `look_of` of the crate `page_theory`, specs/Calls.antt. A count is the number of flips, or 128 plus the zeros of an
// erased block, or 255 of a ruined one. A page with a ruined block is refused and names its lowest one; its counts are written all the
// same. The steps:
// 1. `page_decide` works out the remainders of the blocks up to the first that is not zero. On most pages there is none: every count is
//    0, and nothing more is needed.
// 2. Otherwise each damaged block is decided once, and its count written; a ruined one too, and the blocks after it are looked at all
//    the same.
// 3. The lowest ruined block, if there is one, is the first with the count 255.
// The crate `page_counts` counts, look.rt puts the steps together. Nothing is kept but the counts.
#![tactic(auto)]

mod look;

pub use look::{look_for, look_in, look_page};
