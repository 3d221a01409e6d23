// The coefficients of a message taken in one by one, with no table (document 01, "The code"): for short pieces of a message, since making
// a table takes longer.
//
//   parity_by_bits    the parity of more bits of a message, from the parity of those before on
//
// Divisor and parity are moved up until they fill four, ten or fourteen words, and the parity is moved down at the end. The law behind
// that is in `division_steps`; proofs/Single.antt has the laws of a single step.
#![tactic(auto)]

ghost use Rattle.std.specs.Prelude.{◌≡◌, ◌+◌, ◌*◌, ◌%◌, ◌^◌, ◌≤◌, ◌<◌};
ghost use Rattle.bits.specs.Bits.{bit_of, run, digits};
ghost use Rattle.field.specs.Field.{degree};
ghost use Rattle.code.specs.Generator.{generator};
ghost use Rattle.code.specs.Register.{low, register};
ghost use Rattle.remainder.specs.Parity.{parity_from};
ghost use Rattle.division_table.specs.Table.{RowWords};

use bit_reader::next_bit;
use bit_reader::steps::bit_or_zero;
use division_table::{divisor_row, row_words};
use field::Field;
use register_shifts::{lowered, pushed, raised};
use remainder::Register;
use remainder::add::row_added;
use remainder::coefficients::{coefficient, parity_bits};

// One more coefficient b, by the divisor of degree 64 used whose other coefficients are in the first words of `row`.
fn bit_taken(state: Register, row: [u64; 14], used: usize, b: u64) -> Register
    requires { (RowWords used) × (register state.words < 2 ^ (64 * used)) × (b < 2) }
    ensures { register result.words ≡ parity_from (64 * used) (2 ^ (64 * used) + low row used) (register state.words) (digits b 1) }
{
    let highest = coefficient(state, 64 * used - 1);
    let next = pushed(state, used, 1, 0);
    if highest == b {
        return next;
    }
    row_added(next, &row, 0, used)
}

// The n bits from position `at` on, read through the bit reader.
fn bits_taken(
    state: Register,
    row: [u64; 14],
    used: usize,
    bytes: &[u8],
    at: usize,
    n: usize,
) -> Register
    requires { (RowWords used) × (register state.words < 2 ^ (64 * used)) × (at + n < 18446744073709551616) }
    ensures { register result.words
        ≡ parity_from (64 * used) (2 ^ (64 * used) + low row used) (register state.words) (run (bit_of bytes.now) at n) }
{
    let mut r = state;
    for i in 0..n {
        let read = next_bit(bytes, at + i);
        let b = bit_or_zero(read);
        r = bit_taken(r, row, used, b as u64);
    }
    r
}

// The same with the number of words in use written out: the loops over words are then unrolled.
fn bits_taken_fixed(
    state: Register,
    row: [u64; 14],
    used: usize,
    bytes: &[u8],
    at: usize,
    n: usize,
) -> Register
    requires { (RowWords used) × (register state.words < 2 ^ (64 * used)) × (at + n < 18446744073709551616) }
    ensures { register result.words
        ≡ parity_from (64 * used) (2 ^ (64 * used) + low row used) (register state.words) (run (bit_of bytes.now) at n) }
{
    if used == 4 {
        return bits_taken(state, row, 4, bytes, at, n);
    }
    if used == 10 {
        return bits_taken(state, row, 10, bytes, at, n);
    }
    bits_taken(state, row, 14, bytes, at, n)
}

// The parity of n more bits of a message, from the parity of those before on.
pub fn parity_by_bits(
    f: Field,
    t: usize,
    state: Register,
    bytes: &[u8],
    at: usize,
    n: usize,
) -> Register
    requires { (t % 2 ≡ 0) × (0 < t) × (t ≤ 62) × (register state.words < 2 ^ (degree f * t)) × (at + n < 18446744073709551616) }
    ensures { register result.words
        ≡ parity_from (degree f * t) (generator f t) (register state.words) (run (bit_of bytes.now) at n) }
{
    let d = parity_bits(f, t);
    let used = row_words(d);
    let gap = 64 * used - d;
    let row = divisor_row(f, t);
    let before = raised(state, gap);
    let after = bits_taken_fixed(before, row, used, bytes, at, n);
    lowered(after, gap)
}
