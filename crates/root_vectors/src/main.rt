// Runs test vectors of the crate root_finder: each vector on standard input is a locator, and its answer is one line of places.
//
// What the finder proposes is covered by no contract: these vectors show that it proposes all the roots of locators of both fields
// and every level. A vector is a head of four bytes and then the coefficients below the leading 1, two bytes each, the highest power
// first. The head: `R`, the field choice, the number of coefficients, and a byte not used. A line shows the places proposed.
#![tactic(auto)]

ghost use Rattle.std.specs.Prelude.{◌≤◌};

use field::Field;
use powers::fill_tables;
use root_finder::find_roots;

// The field of a choice, 0 or another number.
fn field_of(choice: u8) -> Field {
    if choice == 0 {
        Field::Thirteen
    } else {
        Field::Fourteen
    }
}

// A coefficient of a vector.
fn coefficient(bytes: &[u8], i: usize) -> u16
    requires { i ≤ 62 }
{
    let at = i + i;
    (vector_io::number(bytes, at, 2) % 65536) as u16
}

// The locator with the given coefficients below its leading 1.
fn locator(bytes: &[u8], len: usize) -> [u16; 128]
    requires { len ≤ 62 }
{
    let mut c = [0u16; 128];
    c[0] = 1;
    for i in 0..len {
        c[i + 1] = coefficient(bytes, i);
    }
    c
}

// The places that the finder proposes, by tables made anew.
fn proposed(f: Field, c: &[u16; 128], len: usize) -> [u16; 64] {
    let mut powers = [0u16; 16384];
    let mut logs = [0u16; 16384];
    fill_tables(f, &mut powers, &mut logs);
    find_roots(f, &powers, &logs, c, len)
}

fn wide(x: u16) -> u64 {
    x as u64
}

fn put_places(line: &mut [u8], places: &[u16; 64], count: usize) -> usize
    requires { count ≤ 62 }
{
    let mut p = 0;
    for i in 0..count {
        p = vector_io::put_number(line, p, wide(places[i]));
    }
    p
}

// Reads the coefficients that follow a head, and answers: false where the input ends before.
fn next_locator<R: Input + Print>(rt: &R, f: Field, bytes: &mut [u8], len: usize) -> bool
    requires { len ≤ 62 }
{
    if !vector_io::fill(rt, bytes) {
        return false;
    }
    let c = locator(bytes, len);
    let places = proposed(f, &c, len);
    let mut line = [0u8; 512];
    let at = put_places(&mut line, &places, len);
    vector_io::write_line(rt, &line, at);
    true
}

// Answers the next vector: false where there is none.
fn next_vector<R: Input + Print>(rt: &R) -> bool {
    let mut head = [0u8; 4];
    if !vector_io::fill(rt, &mut head) {
        return false;
    }
    let f = field_of(vector_io::byte(&head, 1, 0));
    let len = vector_io::byte(&head, 2, 0) as usize;
    if 62 < len {
        return false;
    }
    let mut bytes = [0u8; 124];
    next_locator(rt, f, &mut bytes[..len + len], len)
}

fn main(rt: HostRuntime) {
    for _ in 0..1000000 {
        if !next_vector(&rt) {
            return;
        }
    }
}
