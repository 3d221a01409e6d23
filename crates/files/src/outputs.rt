// Files that are written.
use crate::is_dash;
use crate::names::{beside, text_of};
use say::Answer;
use std::fs::{File, OpenOptions};
use std::io::{ErrorKind, Stdout};
use std::{fs, io};
use streams::{Sink, System};

// A file that is written, or nothing.
// By hand: (d) an Option says already whether an error was printed in its place, and one within the other is no plainer.
#[derive(Drop)]
pub enum Writing {
    Nothing,
    Standard(Stdout),
    File(File),
}

// Whether a file is written as it is, and not by a new one: what lies below /dev/.
pub fn is_direct(path: &[u8]) -> bool {
    path.starts_with(b"/dev/")
}

// Whether nothing is to be put in place for this output: standard output, one that is not wanted or one that is direct.
fn needs_no_place(path: &[u8]) -> bool {
    if is_dash(path) {
        return true;
    }
    is_direct(path)
}

// Creates a file, where no file has its name.
fn create_new<R: System>(rt: &R, path: &[u8]) -> io::Result<File> {
    OpenOptions::new()
        .write(true)
        .create_new(true)
        .open(rt, text_of(path)?)
}

fn rename<R: System>(rt: &R, from: &[u8], to: &[u8]) -> io::Result<()> {
    fs::rename(rt, text_of(from)?, text_of(to)?)
}

fn remove<R: System>(rt: &R, path: &[u8]) -> io::Result<()> {
    fs::remove_file(rt, text_of(path)?)
}

fn create<R: System>(rt: &R, path: &[u8], n: u64) -> io::Result<File> {
    let name = beside(path, n, ".part");
    create_new(rt, name.bytes())
}

fn opened<R: System>(rt: &R, path: &[u8], n: u64) -> io::Result<File> {
    if is_direct(path) {
        return fs::create(rt, text_of(path)?);
    }
    create(rt, path, n)
}

// Begins an output: none where an error was printed. A dash is standard output.
pub fn begin<R: System>(rt: &R, out: &mut Answer, path: &[u8], n: u64) -> Option<Writing> {
    if is_dash(path) {
        return Some(Writing::Standard(rt.output()));
    }
    match opened(rt, path, n) {
        Ok(file) => Some(Writing::File(file)),
        Err(error) => {
            out.bad_output(rt, path, error);
            None
        }
    }
}

// What is written of it.
pub fn sink(output: &Writing) -> Sink<'_> {
    match output {
        Writing::Nothing => Sink::Nothing,
        Writing::Standard(output) => Sink::Output(*output),
        Writing::File(file) => Sink::File(file),
    }
}

// Ends an output that is whole, and says whether that is done: what was written has reached its device, where it is a file.
pub fn end<R: System>(rt: &R, out: &mut Answer, sink: Sink<'_>, path: &[u8]) -> bool {
    match streams::settle(rt, sink) {
        Ok(()) => true,
        Err(error) => {
            out.bad_output(rt, path, error);
            false
        }
    }
}

// Drops what was begun.
pub fn drop_new<R: System>(rt: &R, path: &[u8], n: u64) {
    if needs_no_place(path) {
        return;
    }
    let name = beside(path, n, ".part");
    let _ = remove(rt, name.bytes());
}

fn renamed<R: System>(rt: &R, path: &[u8], n: u64) -> io::Result<()> {
    let name = beside(path, n, ".part");
    rename(rt, name.bytes(), path)
}

// Puts an output that was ended in its place, and says whether that is done.
pub fn place<R: System>(rt: &R, out: &mut Answer, path: &[u8], n: u64) -> bool {
    if needs_no_place(path) {
        return true;
    }
    match renamed(rt, path, n) {
        Ok(()) => true,
        Err(error) => {
            out.bad_output(rt, path, error);
            drop_new(rt, path, n);
            false
        }
    }
}

// Keeps a file under another name, which is taken already by an empty file. Says whether there was one.
fn keep_as<R: System>(rt: &R, path: &[u8], name: &[u8]) -> io::Result<bool> {
    match rename(rt, path, name) {
        Ok(()) => Ok(true),
        Err(error) => {
            let _ = remove(rt, name);
            if error.kind() == ErrorKind::NotFound {
                return Ok(false);
            }
            Err(error)
        }
    }
}

// Keeps the file that has the place as PATH.N.old, where no file has that name, and says whether there was one.
fn keep_old<R: System>(rt: &R, path: &[u8], n: u64) -> io::Result<bool> {
    let name = beside(path, n, ".old");
    create_new(rt, name.bytes())?;
    keep_as(rt, path, name.bytes())
}

fn put_back<R: System>(rt: &R, path: &[u8], n: u64) {
    let name = beside(path, n, ".old");
    let _ = rename(rt, name.bytes(), path);
}

fn drop_old<R: System>(rt: &R, path: &[u8], n: u64) {
    let name = beside(path, n, ".old");
    let _ = remove(rt, name.bytes());
}

// The end of placing several, of which the first has its place: the file that had it is dropped where the others have theirs too, and
// put back where not.
fn settle<R: System>(rt: &R, first: &[u8], n: u64, kept: bool, all: bool) -> bool {
    if all {
        if kept {
            drop_old(rt, first, n);
        }
        return true;
    }
    if kept {
        put_back(rt, first, n);
    } else {
        let _ = remove(rt, first);
    }
    false
}

// Puts an output in place where a file that has it was kept or there is none, and that file back where this fails.
fn place_kept<R: System>(rt: &R, out: &mut Answer, path: &[u8], n: u64, kept: bool) -> bool {
    if place(rt, out, path, n) {
        return true;
    }
    if kept {
        put_back(rt, path, n);
    }
    false
}

// Whether the file that has a place is kept: none where it could not be renamed, and an error was printed.
fn make_ready<R: System>(rt: &R, out: &mut Answer, path: &[u8], n: u64) -> Option<bool> {
    match keep_old(rt, path, n) {
        Ok(kept) => Some(kept),
        Err(error) => {
            out.bad_output(rt, path, error);
            drop_new(rt, path, n);
            None
        }
    }
}

// Puts the first of several in place, and says whether the file that had it is kept. None where that is not done.
fn place_first<R: System>(rt: &R, out: &mut Answer, path: &[u8], n: u64) -> Option<bool> {
    let kept = make_ready(rt, out, path, n)?;
    if place_kept(rt, out, path, n, kept) {
        Some(kept)
    } else {
        None
    }
}

// Puts outputs in place, all or none, and says whether that is done.
pub fn place_all<R: System>(rt: &R, out: &mut Answer, paths: &[&[u8]], n: u64) -> bool {
    match paths {
        [] => true,
        [only] => place(rt, out, only, n),
        [first, rest @ ..] if needs_no_place(first) => place_all(rt, out, rest, n),
        [first, second] if needs_no_place(second) => place(rt, out, first, n),
        [first, rest @ ..] => {
            let Some(kept) = place_first(rt, out, first, n) else {
                for path in rest {
                    drop_new(rt, path, n);
                }
                return false;
            };
            let all = place_all(rt, out, rest, n);
            settle(rt, first, n, kept, all)
        }
    }
}
