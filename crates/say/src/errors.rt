// Lines on standard error.
use crate::{Answer, FILE, USAGE};
use std::io::Error;
use streams::{Sink, System};
use text::Line;

// The start of a line: the tool's name.
fn start() -> Line<8192> {
    let mut line = Line::new();
    line.put("nandpage: ");
    line
}

// The end of a line, which is written by one write.
fn write<R: System>(rt: &R, line: &mut Line<8192>) {
    line.put("\n");
    let _ = streams::put(Sink::Errors(rt.errors()), line.bytes());
}

// Where the last bracket and the blank before it stand, with which the words of a system's error show its number.
fn before_number(words: &[u8]) -> usize {
    match words.iter().rposition(|b| *b == b'(') {
        Some(i) => i.saturating_sub(1),
        None => words.len(),
    }
}

// The system's reason, without the number that it has.
fn reason(error: Error) -> Line<128> {
    let mut words = Line::new();
    words.put(error);
    if error.raw_os_error().is_some() {
        let end = before_number(words.bytes());
        words.cut(end);
    }
    words
}

impl Answer {
    // An error's line.
    pub fn error<R: System>(&mut self, rt: &R, what: &str) {
        let mut line = start();
        line.put(what);
        write(rt, &mut line);
        self.fail(USAGE);
    }

    // An error's line about an argument: what it is called, what was given and what it has to be.
    pub fn bad_argument<R: System>(&mut self, rt: &R, name: &str, given: &[u8], wanted: &str) {
        let mut line = start();
        line.put(format_args!("{name} '"));
        line.put_bytes(given);
        line.put(format_args!("' {wanted}"));
        write(rt, &mut line);
        self.fail(USAGE);
    }

    // An error's line about a file, with the system's reason, in which a dash has another name.
    fn bad<R: System>(&mut self, rt: &R, path: &[u8], dash: &str, error: Error) {
        let mut line = start();
        if matches!(path, b"-") {
            line.put(dash);
        } else {
            line.put_bytes(path);
        }
        line.put(": ");
        line.put_bytes(reason(error).bytes());
        write(rt, &mut line);
        self.fail(FILE);
    }

    // An error's line about a file that is read.
    pub fn bad_file<R: System>(&mut self, rt: &R, path: &[u8], error: Error) {
        self.bad(rt, path, "standard input", error);
    }

    // An error's line about a file that is written.
    pub fn bad_output<R: System>(&mut self, rt: &R, path: &[u8], error: Error) {
        self.bad(rt, path, "standard output", error);
    }
}
