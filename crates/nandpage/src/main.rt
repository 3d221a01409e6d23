// nandpage: NAND pages at a desk. A command line over the library's calls, on files and hexadecimal words (docs/TOOL.md).
//
//   loading.rt      a page from a file, or one page of a dump
//   judging.rt      the command judge
//   claiming.rt     the command claim
//   explaining.rt   the command explain
//   writing.rt      the command write
//
// The crate `commands` says which command is asked for, and has the help. The other commands are libraries: layout_commands, read_command,
// compare_command and locator_commands. They stand on `arguments` (what the arguments say),
// `files` and `streams` (files, read into buffers and written from them), `plans` (the plan of a page under the layout words), `say`
// (what is printed) and `text`.
//
// Each command prints one answer that starts with `reply` and document 01's number, or one error line and no reply. What is
// answered comes from the proved calls; here it is only put into words. scripts/nandpage is told the exit status.
#![tactic(auto)]

mod claiming;
mod explaining;
mod judging;
mod loading;
mod writing;

use commands::{Command, help};
use say::Answer;
use streams::System;

// Runs a command, which prints an answer or an error. No command but the help is inlined here: else a small one would take stack for the
// buffers of the large ones.
fn run<R: System>(rt: &R, out: &mut Answer, command: Command) {
    match command {
        Command::Layout => layout_commands::layout(rt, out),
        Command::Bits => layout_commands::bits(rt, out),
        Command::Write => writing::write(rt, out),
        Command::Read => read_command::read(rt, out),
        Command::Look => read_command::look(rt, out),
        Command::Salvage => read_command::salvage(rt, out),
        Command::Compare => compare_command::compare(rt, out),
        Command::Judge => judging::judge(rt, out),
        Command::Explain => explaining::explain(rt, out),
        Command::Locate => locator_commands::locate(rt, out),
        Command::Fragments => locator_commands::fragments(rt, out),
        Command::Claim => claiming::claim(rt, out),
        Command::Help => help::all(out),
        Command::Unknown => help::unknown(rt, out),
    }
}

fn main(rt: HostRuntime) {
    let mut out = Answer::new();
    run(&rt, &mut out, commands::asked(&rt, arguments::command(&rt)));
    out.flush(&rt);
    out.close(&rt);
    commands::tell(&rt, out.status());
}
