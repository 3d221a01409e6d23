// The command compare of the tool (document 02, E10).
//
//   lines.rt       what pages are compared under, the counts of two pages, their report, or a refusal
//   reporting.rt   the report: a line a block, and the positions at which the pages differ
//   mapping.rt     a character a block: how much of its level is used up
//   paging.rt      one page of each dump
//   dumping.rt     the pages of two dumps, one after the other
//   running.rt     two files of one page each, or two dumps
//   commands.rt    the command
//
// What a run has to do, and what it came to so far, is in `compare_totals`.
#![tactic(auto)]

mod commands;
mod dumping;
mod lines;
mod mapping;
mod paging;
mod reporting;
mod running;

pub use commands::compare;
pub use lines::{Format, Pair, refused, show};
