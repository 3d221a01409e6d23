// Which command of the tool is asked for, the help, and the exit status.
//
//   asked    the command, or the help where it is asked for
//   help     the help, and what is said of a command that there is not
//   tell     tells scripts/nandpage the exit status
#![tactic(auto)]

pub mod help;

use std::fs::OpenOptions;
use streams::{Sink, System};
use text::Line;

// What the first argument asks for.
#[derive(Clone, Copy)]
pub enum Command {
    Layout,
    Bits,
    Write,
    Read,
    Look,
    Salvage,
    Compare,
    Judge,
    Explain,
    Locate,
    Fragments,
    Claim,
    Help,
    Unknown,
}

impl Command {
    fn named(name: &[u8]) -> Command {
        match name {
            b"layout" => Command::Layout,
            b"bits" => Command::Bits,
            b"write" => Command::Write,
            b"read" => Command::Read,
            b"look" => Command::Look,
            b"salvage" => Command::Salvage,
            b"compare" => Command::Compare,
            b"judge" => Command::Judge,
            b"explain" => Command::Explain,
            b"locate" => Command::Locate,
            b"fragments" => Command::Fragments,
            b"claim" => Command::Claim,
            b"--help" | b"-h" | b"help" => Command::Help,
            _ => Command::Unknown,
        }
    }
}

// The command that argument i names, or the help where it is asked for after the command.
pub fn asked<R: System>(rt: &R, i: usize) -> Command {
    let mut next = [0u8; 16];
    if matches!(
        arguments::argument(rt, arguments::place(i, 1), &mut next),
        b"--help"
    ) {
        return Command::Help;
    }
    let mut name = [0u8; 16];
    Command::named(arguments::argument(rt, i, &mut name))
}

// Tells the script the exit status, by the pipe that it has opened as descriptor 9.
pub fn tell<R: System>(rt: &R, status: u8) {
    if !arguments::scripted(rt) {
        return;
    }
    let mut digits = Line::<20>::new();
    digits.put(status);
    if let Ok(script) = OpenOptions::new().write(true).open(rt, "/proc/self/fd/9") {
        let _ = streams::put(Sink::File(&script), digits.bytes());
    }
}
