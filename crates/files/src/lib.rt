// The files of the tool.
//
//   input, close_input              a file that is read; a dash is standard input
//   open_read                       a file that is opened for reading, with no word about it
//   pages_left, pass                how many pages a file still has, and passing over some
//   begin, end, drop_new            an output that is begun, ended as a whole, or dropped
//   place, place_all                an output that takes its place; several that take it together or not at all
//
// An output is a new file beside its place, PATH.N.part, that takes the place when it is whole. So where anything fails, what was
// there is there still. What lies below /dev/ is written as it is. An error is printed where it happens.
//
// The name of a file is text in UTF-8. One that is none is refused, as a system refuses it that has such names only.
#![tactic(auto)]

mod inputs;
mod names;
mod outputs;

pub use inputs::{Reading, close_input, input, open_read, pages_left, pass, source};
pub use outputs::{Writing, begin, drop_new, end, is_direct, place, place_all, sink};

// Whether a name is a dash.
pub fn is_dash(path: &[u8]) -> bool {
    matches!(path, b"-")
}
