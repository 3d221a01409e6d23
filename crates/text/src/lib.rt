// The text of a command line: numbers and bytes as people type them, and what a program does with them before and after a call.
//
//   parse_number      a number in decimal, or in hexadecimal after 0x
//   parse_bytes       bytes in hexadecimal, two digits each
//   hex_byte          a byte in hexadecimal
//   layout_record     the layout record of three words
//   plus, times       of two numbers
//   natural           a number that is not below 0
//   without_prefix    the digits after 0x
//   index_of          the number of a word in a list
//   Line, put, put_all   text that is gathered in a buffer; bytes onto one
//   front, front_mut  the first places of a buffer
//   buffer            a buffer of zeros
//
// No public function asks anything of its caller.
#![tactic(auto)]

mod buffers;
mod digits;
mod hex;
mod lines;
mod pairs;
mod parts;
mod words;

pub use buffers::buffer;
pub use digits::{parse_number, without_prefix};
pub use hex::hex_byte;
pub use lines::{Line, put, put_all};
pub use pairs::parse_bytes;
pub use parts::{front, front_mut, layout_record, natural, plus, times};
pub use words::index_of;
