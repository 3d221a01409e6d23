// What the arguments of the tool say. An error is printed where an argument is not what it has to be.
//
//   command, scripted           where the command stands, and whether scripts/nandpage puts its number in front of it
//   run_number                  the number of the run, by which new files are named
//   find_options                the options after the command
//   argument, given, count      an argument, or an error where it is cut short, and how many there are
//   are                         whether there are so many arguments
//   number, word_list           numbers
//   layout_words, record        the three words of a layout with the edition, and their record
//   bad_remainder               the error about a remainder that cannot be read
#![tactic(auto)]

mod choices;
mod numbers;

ghost use Rattle.std.specs.Prelude.{◌≤◌, length};

pub use choices::{Choice, Options, find_options};
pub use numbers::{LayoutWords, WORD, bad_remainder, number, word_list};
use say::Answer;
use std::env::FillError;
use streams::System;

// Puts argument i to the front of the buffer: it is empty where it is missing or longer than the buffer, which then holds its first bytes.
pub fn argument<'a, R: System>(rt: &R, i: usize, buffer: &'a mut [u8]) -> &'a [u8]
    ensures { length result.now ≤ length buffer.old }
{
    let n = rt.arg(i, buffer).unwrap_or(0);
    text::front(buffer, n)
}

// Puts argument i to the front of the buffer: it is empty where it is missing. None where it is longer, and an error was printed.
pub fn given<'a, R: System>(
    rt: &R,
    out: &mut Answer,
    i: usize,
    name: &str,
    buffer: &'a mut [u8],
) -> Option<&'a [u8]> {
    match rt.arg(i, buffer) {
        Ok(n) => Some(text::front(buffer, n)),
        Err(FillError::NotPresent) => Some(text::front(buffer, 0)),
        Err(FillError::TooLong) => {
            out.bad_argument(rt, name, b"..", "is too long");
            None
        }
    }
}

// How many arguments the program was started with, its own name among them.
pub fn count<R: System>(rt: &R) -> usize {
    let mut given = [0u8; 1];
    for i in 0..usize::MAX {
        if let Err(FillError::NotPresent) = rt.arg(i, &mut given) {
            return i;
        }
    }
    usize::MAX
}

// Whether scripts/nandpage runs the program: it puts `--script` and a number before the command, and is told the exit status
// on descriptor 9.
pub fn scripted<R: System>(rt: &R) -> bool {
    let mut buffer = [0u8; 16];
    matches!(argument(rt, 1, &mut buffer), b"--script")
}

// The number by which a new file beside an old one is named: the script's, or 0 without it.
pub fn run_number<R: System>(rt: &R) -> u64 {
    if !scripted(rt) {
        return 0;
    }
    let mut buffer = [0u8; 16];
    text::parse_number(argument(rt, 2, &mut buffer)).unwrap_or(0)
}

// The number of the argument that is the command.
pub fn command<R: System>(rt: &R) -> usize {
    if scripted(rt) { 3 } else { 1 }
}

// The number of the argument `k` places on.
pub fn place(at: usize, k: usize) -> usize {
    at.checked_add(k).unwrap_or(at)
}

// Whether there are so many arguments from place `at` on; an error is printed where not.
pub fn are<R: System>(rt: &R, out: &mut Answer, at: usize, count: usize, usage: &str) -> bool {
    if crate::count(rt) == place(at, count) {
        return true;
    }
    out.error(rt, usage);
    false
}
