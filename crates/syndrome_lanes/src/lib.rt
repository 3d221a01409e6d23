// The values of a remainder at the odd powers of a, all of them side by side: lane i is for a^(2i + 1).
//
//   fill_rows      a table of the powers that 32 terms add to the lanes
//   lane_values    the values of a remainder
//
// A digit of 32 coefficients adds a row of the table for each of its ones; before each digit the lanes are multiplied by a^(32 (2i + 1)).
// Row p has its lanes next to each other, so that the compiler adds several at a time. No exponent up to 123 * 32 needs wrapping.
#![tactic(auto)]

ghost use Rattle.std.specs.Prelude.{◌≡◌, ℕ, ◌+◌, ◌*◌, ◌^◌, ◌<◌, ◌≤◌, length, get_or};
ghost use Rattle.field.specs.Field.{degree};
ghost use Rattle.field.specs.Tables.{Tables};
ghost use Rattle.code.specs.Register.{register};
ghost use Rattle.syndrome_lanes.specs.Lanes.{Rows, Rowed, Filled, Lanes, Raised, Added, Scanned};

use field::Field;
use field_tables::scaled;
use remainder::Register;
use remainder::coefficients::parity_bits;

// Row p: a^((2i + 1) p) in lane i.
fn fill_row(powers: &[u16; 16384], rows: &mut [u16; 2048], t: usize, p: usize)
    requires { (t ≤ 62) × (p < 32) × (length rows.old ≡ 2048) }
    ensures { Rowed powers.now t p rows.old rows.new }
{
    let at = 64 * p;
    let step = p + p;
    let mut e = p;
    for i in 0..t {
        rows[at + i] = powers[e];
        e += step;
    }
}

// The rows of 32 terms, for lanes below t.
fn fill_lanes(powers: &[u16; 16384], rows: &mut [u16; 2048], t: usize)
    requires { (t ≤ 62) × (length rows.old ≡ 2048) }
    ensures { Filled powers.now t 32 rows.new }
{
    for p in 0..32 {
        fill_row(powers, rows, t, p);
    }
}

// The same. Up to 16 lanes are filled as 16, a number that the compiler knows: it unrolls the loop over them.
pub fn fill_rows(powers: &[u16; 16384], rows: &mut [u16; 2048], t: usize)
    requires { (t ≤ 62) × (length rows.old ≡ 2048) }
    ensures { Filled powers.now t 32 rows.new }
{
    if t <= 16 {
        fill_lanes(powers, rows, 16);
        return;
    }
    fill_lanes(powers, rows, t);
}

// Adds row p to the first `width` lanes.
fn add_row(rows: &[u16; 2048], lanes: &mut [u16; 64], p: usize, width: usize)
    requires { (p < 32) × (length lanes.old ≡ 64) × (width ≤ 64) }
    ensures { Added width rows.now p lanes.old lanes.new }
{
    let at = 64 * p;
    for i in 0..width {
        lanes[i] ^= rows[at + i];
    }
}

// Adds the rows of the ones of a digit to the first `width` lanes.
fn add_digit(rows: &[u16; 2048], lanes: &mut [u16; 64], word: u32, width: usize)
    requires { (length lanes.old ≡ 64) × (width ≤ 64) }
    ensures { Scanned width rows.now word lanes.old lanes.new }
{
    let mut left = word;
    while left != 0 {
        let zeros = u32::trailing_zeros(left);
        let p = zeros as usize;
        add_row(rows, lanes, p, width);
        let one = 1u32 << zeros;
        left = left - one;
    }
}

// The same for lanes below t, with the number of lanes written out, so that the compiler keeps them in registers.
fn add_digit_fixed(rows: &[u16; 2048], lanes: &mut [u16; 64], word: u32, t: usize)
    requires { (length lanes.old ≡ 64) × (t ≤ 62) }
    ensures { Scanned t rows.now word lanes.old lanes.new }
{
    if t <= 16 {
        add_digit(rows, lanes, word, 16);
        return;
    }
    add_digit(rows, lanes, word, 64);
}

// Multiplies lane i by a^(32 (2i + 1)).
fn raise(f: Field, powers: &[u16; 16384], logs: &[u16; 16384], lanes: &mut [u16; 64], t: usize)
    requires tables { Tables f powers.now logs.now }
    requires t_bound { (t ≤ 62) × (length lanes.old ≡ 64) × ((i : ℕ) → i < t → get_or lanes.old i 0 < 2 ^ degree f) }
    ensures { Raised f t lanes.old lanes.new }
{
    let mut e: usize = 32;
    for i in 0..t {
        let w = scaled(f, powers, logs, lanes[i], e);
        lanes[i] = w;
        e = e + 64;
    }
}

// The values of a remainder at a, a^3, .., a^(2t - 1), by rows for as many lanes.
pub fn lane_values(
    f: Field,
    powers: &[u16; 16384],
    logs: &[u16; 16384],
    rows: &[u16; 2048],
    state: Register,
    t: usize,
) -> [u16; 64]
    requires tables { (Tables f powers.now logs.now) × (Rows f t 32 rows.now) }
    requires t_bound { (t ≤ 62) × (register state.words < 2 ^ (degree f * t)) }
    ensures { Lanes f t (register state.words) (degree f * t) result }
{
    let d = parity_bits(f, t);
    let n = (d + 31) / 32;
    let words = state.words;
    let mut lanes = [0u16; 64];
    for i in 0..n {
        let at = n - 1 - i;
        let word = ((words[at / 2] >> (32 * (at % 2))) % 4294967296) as u32;
        raise(f, powers, logs, &mut lanes, t);
        add_digit_fixed(rows, &mut lanes, word, t);
    }
    lanes
}
