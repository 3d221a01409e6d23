// Vectors that are lines of text: the words of a line, with one space between them.
//
//   call             which of several calls a line is
//   number, buffer   a number and a buffer of a line
//
// Words are counted from 0. No function asks anything of its caller: words that are not there are `None`.
#![tactic(auto)]

ghost use Rattle.std.specs.Prelude.{◌≤◌, length};

// Where the next space stands from place `at` on; the end of the line where there is none.
fn space_from(line: &[u8], at: usize) -> usize
    requires { at ≤ length line.now }
    ensures low { at ≤ result }
    ensures high { result ≤ length line.now }
{
    match line[at..].iter().position(|&c| c == b' ') {
        Some(k) => at + k,
        None => line.len(),
    }
}

// Where the word after the one at place `at` starts; the end of the line where there is none.
fn next(line: &[u8], at: usize) -> usize
    ensures { result ≤ length line.now }
{
    let end = line.len();
    if end <= at {
        return end;
    }
    let space = space_from(line, at);
    if space < end {
        return space + 1;
    }
    end
}

// Where word n starts.
fn start(line: &[u8], n: usize) -> usize
    ensures { result ≤ length line.now }
{
    let mut at = 0;
    for _ in 0..n {
        at = next(line, at);
    }
    at
}

// Word n; an empty one where the line has no more.
fn word(line: &[u8], n: usize) -> &[u8] {
    let at = start(line, n);
    let end = space_from(line, at);
    &line[at..end]
}

// The number of word 0 in a list of names with `|` between one and the next; how many there are where it is none of them.
pub fn call(line: &[u8], names: &[u8]) -> u64 {
    text::index_of(word(line, 0), names)
}

// The number that word n is: decimal, or hexadecimal after 0x.
pub fn number(line: &[u8], n: usize) -> Option<u64> {
    text::parse_number(word(line, n))
}

// Puts the bytes that word n says to the front of `out`, and says how many they are: hexadecimal digits, or `-` for none.
pub fn buffer(line: &[u8], n: usize, out: &mut [u8]) -> Option<u64> {
    let digits = word(line, n);
    if digits.is_empty() {
        return None;
    }
    if digits == b"-".as_slice() {
        return Some(0);
    }
    text::parse_bytes(digits, out)
}
