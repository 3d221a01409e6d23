// Pages of sectors, for the other family of controllers (document 02, E12).
//
//   locate_bit       where does a page bit belong? Sector and exponent, or the tail; pads are in the tail
//   bit_position     where does a code bit lie? Its position in the page
//   write_page       writes a page
//   look_page        looks at a page: one count a sector
//   take_page        takes the data out of a page
//   judge_block      the flip count of one sector
//   check_claim      are these error locations of a sector right?
//
// Each takes the six numbers of the layout and the edition (`layout_plan::Sectors`) and asks nothing of its caller. A page has no metadata. The
// calls differ from those of layout words in how the plan is made (`sectors::check_sectors`) and in nothing else: what a call answers
// and leaves is the definition that serves both (`page_theory`, specs/Calls.antt, `write_for` and the others).
// By hand: each is one line over `write_for` and the others; a trait over what names a layout would take no line away.
#![tactic(auto)]

mod pages;
mod places;

pub use pages::{check_claim, judge_block, look_page, take_page, write_page};
pub use places::{bit_position, locate_bit};
