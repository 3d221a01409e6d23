// Layout records taken apart (document 01, "Layout words"; document 02, E7).
//
//   record_length            whether a record may have so many bytes
//   fields_in, fields_of     the fields of a record
//
// words.rt takes the eight or twelve bytes of a record apart into the fields of document 01 and the mark of document 02
// (`layout_plan::Fields`), as layout_plan/Record has it.
#![tactic(auto)]

mod words;

pub use words::{fields_in, fields_of, record_length};
