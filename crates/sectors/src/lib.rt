// The layout of a page of sectors, for the other family of controllers (document 02, E12): whether it is accepted.
//
//   check_sectors    is this layout of sectors acceptable? The layout, or the reason why not
//
// The call takes the six numbers and the edition as they are, and asks nothing of its caller. `layout` works the plan out and has the rules: they
// are those of layout words, for a page without metadata and mark.
#![tactic(auto)]

mod check;

pub use check::check_sectors;
