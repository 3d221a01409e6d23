// Names of files.
use std::io::Error;
use std::{io, str};
use text::Line;

// The system's numbers of these errors.
const ENAMETOOLONG: i32 = 36;

const EILSEQ: i32 = 84;

// A name as text.
pub fn text_of(path: &[u8]) -> io::Result<&str> {
    if 4095 < path.len() {
        return Err(Error::from_raw_os_error(ENAMETOOLONG));
    }
    str::from_utf8(path).map_err(|_| Error::from_raw_os_error(EILSEQ))
}

// The name PATH.N and an ending. A name that is too long for a path is made too long, and refused by the system.
pub fn beside(path: &[u8], n: u64, ending: &str) -> Line<4096> {
    let mut name = Line::new();
    name.put_bytes(path);
    name.put(format_args!(".{n}{ending}"));
    name
}
