// The commands read, look and salvage of the tool.
//
//   commands.rt    the commands
//   running.rt     a file of at most one page, which is read as one page, or a dump
//   dumping.rt     the pages of a dump, one after the other
//   reading.rt     the calls of the library that look at a page and take it
//   lines.rt       a page's line
//   saving.rt      a page with ruined blocks of which the others are saved
//   salvaging.rt   metadata and data of such a page
#![tactic(auto)]

mod commands;
mod dumping;
mod lines;
mod reading;
mod running;
mod salvaging;
mod saving;

pub use commands::{look, read, salvage};
