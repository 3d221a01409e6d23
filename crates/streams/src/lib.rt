// What the tool reaches of the system, and streams of bytes, which are read into buffers and written from them as a whole. A call that
// a signal interrupts is made again.
//
//   System         the arguments, the files, the clock and the three standard streams
//   Source, Sink   what is read, what is written: a standard stream, a file, or nothing
//   fill           reads until the buffer is full or the source ends
//   put            writes all bytes
//   settle         what was written has reached its device
//   left           the turns of such a loop
//
// Where a call fails, its error says why.
#![tactic(auto)]

ghost use Rattle.std.specs.Prelude.{◌≤◌, ◌-◌};
ghost use Rattle.std.specs.Io.{ReadsAtMost};

use std::env::Env;
use std::fs::{File, Files, OpenOptions};
use std::io::{ErrorKind, Read, Stderr, Stdin, Stdout, Write};
use std::time::Clock;
use std::{fs, io};

// The system that the tool runs on.
pub trait System: Env + Files<File = File> + Clock {
    fn input(&self) -> Stdin;

    fn output(&self) -> Stdout;

    fn errors(&self) -> Stderr;
}

impl System for HostRuntime {
    fn input(&self) -> Stdin {
        self.stdin()
    }

    fn output(&self) -> Stdout {
        self.stdout()
    }

    fn errors(&self) -> Stderr {
        self.stderr()
    }
}

// What is read. Nothing has no bytes.
// By hand: (d) nothing is a stream like the others, which ends at once or takes all; an Option would be asked at each read and write.
#[derive(Clone, Copy)]
pub enum Source<'a> {
    Nothing,
    Input(Stdin),
    File(&'a File),
}

// What is written. What is put to nothing is dropped.
#[derive(Clone, Copy)]
pub enum Sink<'a> {
    Nothing,
    Output(Stdout),
    Errors(Stderr),
    File(&'a File),
}

fn read_some(source: Source<'_>, buffer: &mut [u8]) -> io::Result<usize>
    ensures { ReadsAtMost result buffer.new }
{
    match source {
        Source::Nothing => Ok(0),
        Source::Input(input) => {
            let mut input = input;
            input.read(buffer)
        }
        Source::File(file) => {
            let mut file = file;
            file.read(buffer)
        }
    }
}

// The turns of a loop that are left after one, of which there are so many that they never run out: none where there is no more to do.
pub fn left(turns: u64, more: bool) -> u64
    ensures { result ≤ turns - 1 }
{
    if more { turns.saturating_sub(1) } else { 0 }
}

// Fills the buffer from place `from` on, as far as the source goes, and says how many bytes it then holds.
pub fn fill(source: Source<'_>, buffer: &mut [u8], from: usize) -> io::Result<usize> {
    let mut at = from;
    for _ in 0..u64::MAX {
        if buffer.len() <= at {
            break;
        }
        match read_some(source, &mut buffer[at..]) {
            Ok(0) => break,
            Ok(n) => at += n,
            Err(error) => {
                if error.kind() != ErrorKind::Interrupted {
                    return Err(error);
                }
            }
        }
    }
    Ok(at)
}

// Writes all bytes.
pub fn put(sink: Sink<'_>, bytes: &[u8]) -> io::Result<()> {
    match sink {
        Sink::Nothing => Ok(()),
        Sink::Output(output) => {
            let mut output = output;
            output.write_all(bytes)
        }
        Sink::Errors(errors) => {
            let mut errors = errors;
            errors.write_all(bytes)
        }
        Sink::File(file) => {
            let mut file = file;
            file.write_all(bytes)
        }
    }
}

fn settle_file(file: &File) -> io::Result<()> {
    if !file.metadata()?.is_file() {
        return Ok(());
    }
    file.sync_all()
}

// Standard output has no such call of its own. Where it is a file, that is opened once more.
fn settle_output<R: System>(rt: &R) -> io::Result<()> {
    let name = "/proc/self/fd/1";
    let Ok(metadata) = fs::metadata(rt, name) else {
        return Ok(());
    };
    if !metadata.is_file() {
        return Ok(());
    }
    match OpenOptions::new().write(true).open(rt, name) {
        Ok(file) => settle_file(&file),
        Err(_) => Ok(()),
    }
}

// What was written has reached its device, where it went to a file: a write that is late may fail only then. A pipe or a terminal
// keeps nothing back.
pub fn settle<R: System>(rt: &R, sink: Sink<'_>) -> io::Result<()> {
    match sink {
        Sink::Nothing => Ok(()),
        Sink::Output(_) => settle_output(rt),
        Sink::Errors(_) => Ok(()),
        Sink::File(file) => settle_file(file),
    }
}
