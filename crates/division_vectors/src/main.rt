// Runs test vectors of the division: each vector on standard input is a run of bits, and its answer is one line of two registers.
//
// A vector is a head of eight bytes and then the bytes in which the run lies. The head: `D`, the field choice, the level field, the position
// of the first bit in the first byte, the number of bits (two bytes) and the number of bytes (two bytes). A line shows the words of the
// remainder of the run by the table of the level, and then those of its parity as a message, worked out bit by bit, the lowest word first.
#![tactic(auto)]

ghost use Rattle.std.specs.Prelude.{◌≡◌, ◌%◌, ◌≤◌, ◌<◌};

use bitwise_division::parity_by_bits;
use division::runs::remainder_of;
use division_table::make_table;
use field::Field;
use remainder::Register;
use remainder::coefficients::zero;

// The field of a choice, 0 or another number.
fn field_of(choice: u8) -> Field {
    if choice == 0 {
        Field::Thirteen
    } else {
        Field::Fourteen
    }
}

fn by_table(f: Field, t: usize, bytes: &[u8], at: usize, n: usize) -> Register
    requires { (t % 2 ≡ 0) × (t ≤ 62) × (at < 256) × (n < 65536) }
{
    let mut table = [0u8; 36864];
    make_table(f, t, &mut table);
    remainder_of(f, t, &table, bytes, at, n)
}

fn by_bits(f: Field, t: usize, bytes: &[u8], at: usize, n: usize) -> Register
    requires { (t % 2 ≡ 0) × (t ≤ 62) × (at < 256) × (n < 65536) }
{
    let start = zero();
    if t == 0 {
        return start;
    }
    parity_by_bits(f, t, start, bytes, at, n)
}

// Reads the bytes that follow a head, and answers: false where the input ends before.
fn next_run<R: Input + Print>(
    rt: &R,
    f: Field,
    ecc: usize,
    at: usize,
    n: usize,
    bytes: &mut [u8],
) -> bool
    requires { (ecc ≤ 31) × (at < 256) × (n < 65536) }
{
    if !vector_io::fill(rt, bytes) {
        return false;
    }
    let t = 2 * ecc;
    let remainder = by_table(f, t, bytes, at, n).words;
    let parity = by_bits(f, t, bytes, at, n).words;
    let mut line = [0u8; 640];
    let middle = vector_io::put_numbers(&mut line, 0, &remainder);
    let end = vector_io::put_numbers(&mut line, middle, &parity);
    vector_io::write_line(rt, &line, end);
    true
}

// Answers the next vector: false where there is none.
fn next_vector<R: Input + Print>(rt: &R) -> bool {
    let mut head = [0u8; 8];
    if !vector_io::fill(rt, &mut head) {
        return false;
    }
    let f = field_of(vector_io::byte(&head, 1, 0));
    let ecc = vector_io::byte(&head, 2, 0) as usize;
    let at = vector_io::byte(&head, 3, 0) as usize;
    let n = (vector_io::number(&head, 4, 2) % 65536) as usize;
    let length = (vector_io::number(&head, 6, 2) % 65536) as usize;
    let mut bytes = [0u8; 2048];
    if 31 < ecc {
        return false;
    }
    if 2048 < length {
        return false;
    }
    next_run(rt, f, ecc, at, n, &mut bytes[..length])
}

fn main(rt: HostRuntime) {
    for _ in 0..1000000 {
        if !next_vector(&rt) {
            return;
        }
    }
}
