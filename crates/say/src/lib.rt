// What the tool prints, and the exit status that it comes to.
//
// An `Answer` is gathered in a buffer that every function is lent, and written by one call when it is whole. It has the exit status so far
// too: 0, the first other reply, or the number of an error.
//
//   new, flush, forget, to_stderr   an answer; its text written, dropped, or sent to standard error
//   text                            the text, to be written elsewhere
//   status, fail                    the exit status; another one
//   put                             what is shown: a text, a number, several of these by `format_args!`
//   put_bytes                       bytes, as they were typed
//   reply, meaning                  the start of an answer, and what a reply says
//   length, page_refused, ruined    what is wrong with a page
//   error, bad_argument, bad_file, bad_output   an error's line on standard error
//   close                           standard output settled, which may fail as well
#![tactic(auto)]

mod errors;
mod pages;

use std::fmt::Display;
use std::io::Error;
use streams::{Sink, System};
use text::Line;

// The exit status of an error in the arguments, and that of a file that fails. Neither is a reply.
pub const USAGE: u8 = 64;

pub const FILE: u8 = 74;

// Where the text goes: nowhere where writing it failed.
#[derive(Clone, Copy)]
enum Place {
    Output,
    Errors,
    Nowhere,
}

// What is printed, and the exit status so far.
#[derive(Drop)]
pub struct Answer {
    text: Line<32760>,
    status: u8,
    place: Place,
}

impl Answer {
    // An answer with no text, for standard output.
    pub fn new() -> Self {
        Answer {
            text: Line::new(),
            status: 0,
            place: Place::Output,
        }
    }

    // Drops the text.
    pub fn forget(&mut self) {
        self.text.cut(0);
    }

    // Sends the text to standard error, where standard output has a page's bytes.
    pub fn to_stderr(&mut self) {
        self.place = Place::Errors;
    }

    pub fn status(&self) -> u8 {
        self.status
    }

    // Sets the exit status, whatever was answered before.
    pub fn fail(&mut self, status: u8) {
        self.status = status;
    }

    // The text.
    pub fn text(&self) -> &[u8] {
        self.text.bytes()
    }

    fn broken<R: System>(&mut self, rt: &R, error: Error) {
        self.place = Place::Nowhere;
        self.bad_output(rt, b"-", error);
    }

    // Writes the text. Where that fails an error is printed, and nothing is written from then on.
    pub fn flush<R: System>(&mut self, rt: &R) {
        let sink = match self.place {
            Place::Output => Sink::Output(rt.output()),
            Place::Errors => Sink::Errors(rt.errors()),
            Place::Nowhere => Sink::Nothing,
        };
        let written = streams::put(sink, self.text.bytes());
        self.forget();
        if let Err(error) = written {
            self.broken(rt, error);
        }
    }

    // The end of standard output, where the text goes to it: what was written has reached the file that it is.
    pub fn close<R: System>(&mut self, rt: &R) {
        if let Place::Output = self.place {
            if let Err(error) = streams::settle(rt, Sink::Output(rt.output())) {
                self.broken(rt, error);
            }
        }
    }

    pub fn put<D: Display + Drop>(&mut self, what: D) {
        self.text.put(what);
    }

    pub fn put_bytes(&mut self, bytes: &[u8]) {
        self.text.put_bytes(bytes);
    }

    // The exit status is the first reply that is not 0.
    fn note(&mut self, reply: u8) {
        if self.status == 0 {
            self.status = reply;
        }
    }

    // The start of an answer's line: its reply.
    pub fn reply(&mut self, n: u8) {
        self.note(n);
        self.put(format_args!("reply {n}: "));
    }
}

// What a reply says (document 01, "Replies").
pub fn meaning(reply: u8) -> &'static str {
    match reply {
        1 => "a level field is too large",
        2 => "a block has an empty message",
        3 => "a block is longer than its field allows",
        4 => "the blocks need more bits than the page has",
        5 => "the page has not the length that the layout says",
        6 => "a file has a wrong length",
        7 => "a number is outside its range",
        8 => "the remainder has a one above its highest bit",
        9 => "uncorrectable, no codeword within t flips",
        10 => "the claimed locations are wrong",
        _ => "refused",
    }
}
