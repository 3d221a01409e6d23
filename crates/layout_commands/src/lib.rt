// The commands layout and bits of the tool.
#![tactic(auto)]

mod layouts;
mod positions;

pub use layouts::layout;
pub use positions::bits;
