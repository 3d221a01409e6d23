// Files that are read.
use crate::is_dash;
use crate::names::text_of;
use say::Answer;
use std::fs::File;
use std::io::{Error, ErrorKind, Seek, SeekFrom, Stdin};
use std::os::unix::fs::FileTypeExt;
use std::{fs, io};
use streams::{Source, System};

// A file that is read, or nothing.
// By hand: (d) an Option says already whether an error was printed in its place, and one within the other is no plainer.
#[derive(Drop)]
pub enum Reading {
    Nothing,
    Standard(Stdin),
    File(File),
}

// Opens a file for reading.
pub fn open_read<R: System>(rt: &R, path: &[u8]) -> io::Result<File> {
    fs::open(rt, text_of(path)?)
}

// Opens a file for reading: none where an error was printed. A dash is standard input.
pub fn input<R: System>(rt: &R, out: &mut Answer, path: &[u8]) -> Option<Reading> {
    if is_dash(path) {
        return Some(Reading::Standard(rt.input()));
    }
    match open_read(rt, path) {
        Ok(file) => Some(Reading::File(file)),
        Err(error) => {
            out.bad_file(rt, path, error);
            None
        }
    }
}

// What is read of it.
pub fn source(input: &Reading) -> Source<'_> {
    match input {
        Reading::Nothing => Source::Nothing,
        Reading::Standard(input) => Source::Input(*input),
        Reading::File(file) => Source::File(file),
    }
}

pub fn close_input(input: Reading) {
    drop(input);
}

// The number of pages of `size` bytes in so many bytes, the last one cut short or not.
fn pages_in(bytes: u64, size: u16) -> u64 {
    if size == 0 {
        return 0;
    }
    bytes.div_ceil(u64::from(size))
}

// The position and the end of a file. A pipe has no position.
fn positions(file: &File) -> io::Result<(u64, u64)> {
    let mut file = file;
    let here = file.seek(SeekFrom::Current(0))?;
    let last = file.seek(SeekFrom::End(0)).unwrap_or(0);
    let _ = file.seek(SeekFrom::Start(here));
    Ok((here, last))
}

// The number that the first of these bytes after the blanks say in decimal digits.
fn leading(bytes: &[u8]) -> u64 {
    bytes
        .iter()
        .skip_while(|b| !b.is_ascii_digit())
        .take_while(|b| b.is_ascii_digit())
        .fold(
            0,
            |v, b| text::plus(text::times(v, 10), u64::from(b.saturating_sub(b'0'))),
        )
}

// Standard input among what is open.
const INPUT: &str = "/proc/self/fd/0";

// The end of a device that is standard input: the same where it is opened once more.
fn device_end<R: System>(rt: &R) -> io::Result<u64> {
    let device = fs::open(rt, INPUT)?;
    let mut device = &device;
    device.seek(SeekFrom::End(0))
}

// The end of standard input, where it has one.
fn input_end<R: System>(rt: &R) -> io::Result<u64> {
    let metadata = fs::metadata(rt, INPUT)?;
    if metadata.is_file() {
        return Ok(metadata.len());
    }
    let kind = metadata.file_type();
    if kind.is_char_device() || kind.is_block_device() {
        return device_end(rt);
    }
    Err(Error::from(ErrorKind::NotSeekable))
}

// The position and the end of standard input. The system says the position in its lines about what is open, the first of which begins
// with `pos:`.
fn input_positions<R: System>(rt: &R) -> io::Result<(u64, u64)> {
    let last = input_end(rt)?;
    let lines = fs::open(rt, "/proc/self/fdinfo/0")?;
    let mut bytes = [0u8; 64];
    streams::fill(Source::File(&lines), &mut bytes, 0)?;
    Ok((leading(&bytes), last))
}

fn positions_of<R: System>(rt: &R, source: Source<'_>) -> io::Result<(u64, u64)> {
    match source {
        Source::Nothing => Ok((0, 0)),
        Source::Input(_) => input_positions(rt),
        Source::File(file) => positions(file),
    }
}

// How many pages a file has from its position on: none where that is not known. A pipe has no position.
pub fn pages_left<R: System>(rt: &R, source: Source<'_>, size: u16) -> Option<u64> {
    let (here, last) = positions_of(rt, source).ok()?;
    Some(pages_in(last.saturating_sub(here), size))
}

// Passes over a page of a file by its position, where it has one.
fn is_passed(source: Source<'_>, size: u16) -> bool {
    match source {
        Source::Nothing => false,
        Source::Input(_) => false,
        Source::File(file) => {
            let mut file = file;
            file.seek(SeekFrom::Current(i64::from(size))).is_ok()
        }
    }
}

// Passes over a page of a file, by its position where it has one, else by reading. Says whether it was there.
fn pass_one(source: Source<'_>, page: &mut [u8], size: u16) -> io::Result<bool> {
    if is_passed(source, size) {
        return Ok(true);
    }
    Ok(streams::fill(source, page, 0)? == size as usize)
}

// Passes over so many pages, each as long as the buffer, and says whether there are so many and more.
pub fn pass<R: System>(
    rt: &R,
    source: Source<'_>,
    page: &mut [u8],
    size: u16,
    count: u64,
) -> io::Result<bool> {
    if pages_left(rt, source, size).is_some_and(|n| n <= count) {
        return Ok(false);
    }
    for _ in 0..count {
        if !pass_one(source, page, size)? {
            return Ok(false);
        }
    }
    Ok(true)
}
