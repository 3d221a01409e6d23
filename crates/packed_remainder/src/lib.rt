// Remainders modulo one polynomial f many times over, for the root finder, by a shift register of packed words: four coefficients of
// 16 bits to a word, the highest coefficient at the top of the last word in use. A step brings in one coefficient and adds a multiple
// of f, as the sum of four rows, one for each digit of four bits of the factor. Nothing is promised but that each function is safe.
//
//   first_digit, next_digit    the rows for the lowest digit, and those for a digit from the digit before
//   reduce                     the remainder of a polynomial, in place
//
// The rows of a digit are the multiples by 0 to 15 of its unit, 16 words to a row.
#![tactic(auto)]

ghost use Rattle.std.specs.Prelude.{◌≡◌, ◌+◌, ◌*◌, ◌≤◌, ◌<◌, length};

// Where the coefficient at place p lies in its word.
fn lane(p: usize) -> usize
    ensures { result ≤ 48 }
{
    16 * (p % 4)
}

fn shifted(x: u16, by: usize) -> u64
    requires { by ≤ 48 }
{
    (x as u64) << by
}

fn coefficient(word: u64, by: usize) -> u16
    requires { by ≤ 48 }
{
    ((word >> by) % 65536) as u16
}

// Packs `count` coefficients from `at` on, the first at place `pad`, into the words from `base` on, which are 0.
fn pack(row: &[u16], at: usize, count: usize, pad: usize, words: &mut [u64], base: usize)
    requires { (at + count ≤ length row.now) × (pad + count ≤ 64) × (base ≤ 240) × (base + 16 ≤ length words.old) }
    ensures { length words.new ≡ length words.old }
{
    for j in 0..count {
        let p = pad + j;
        words[base + p / 4] ^= shifted(row[at + j], lane(p));
    }
}

// Takes `count` coefficients from place `pad` on out of words.
fn unpack(words: &[u64], pad: usize, row: &mut [u16], count: usize)
    requires { (count ≤ length row.old) × (pad + count ≤ 64) × (length words.now ≡ 16) }
    ensures { length row.new ≡ length row.old }
{
    for (j, x) in row[..count].iter_mut().enumerate() {
        let p = pad + j;
        *x = coefficient(words[p / 4], lane(p));
    }
}

// The bits of four elements that stay below x^m when they are shifted by one.
fn low_bits(m: usize) -> u64 {
    if m == 13 {
        0x0fff0fff0fff0fff
    } else {
        0x1fff1fff1fff1fff
    }
}

// Four elements times a: x^m is x^4 + x^3 + x + 1 for m = 13, and x^5 + x^3 + x + 1 for m = 14.
fn times_a(word: u64, m: usize, low: u64) -> u64
    requires { (9 ≤ m) × (m ≤ 16) }
{
    let high = (word >> (m - 1)) & 0x0001000100010001;
    let kept = (word & low) << 1;
    kept ^ high ^ (high << 1) ^ (high << 3) ^ (high << (m - 9))
}

// A row: a times the row at `from`.
fn put_times_a(rows: &mut [u64], from: usize, to: usize, used: usize, m: usize)
    requires { (9 ≤ m) × (m ≤ 16) × (used ≤ 16) × (from ≤ 240) × (to ≤ 240) × (length rows.old ≡ 256) }
    ensures { length rows.new ≡ length rows.old }
{
    let low = low_bits(m);
    for i in 0..used {
        rows[to + i] = times_a(rows[from + i], m, low);
    }
}

// A row: the sum of the row at `from` and the unit.
fn put_sum(rows: &mut [u64], from: usize, to: usize, used: usize)
    requires { (used ≤ 16) × (from ≤ 240) × (to ≤ 240) × (length rows.old ≡ 256) }
    ensures { length rows.new ≡ length rows.old }
{
    for i in 0..used {
        rows[to + i] = rows[from + i] ^ rows[16 + i];
    }
}

// The rows for 2 v and 2 v + 1.
fn put_two(rows: &mut [u64], v: usize, used: usize, m: usize)
    requires { (9 ≤ m) × (m ≤ 16) × (used ≤ 16) × (v < 8) × (length rows.old ≡ 256) }
    ensures { length rows.new ≡ length rows.old }
{
    let even = 32 * v;
    put_times_a(rows, 16 * v, even, used, m);
    put_sum(rows, even, even + 16, used);
}

// The rows of a digit from its unit, which is row 1.
fn fill(rows: &mut [u64], used: usize, m: usize)
    requires { (9 ≤ m) × (m ≤ 16) × (used ≤ 16) × (length rows.old ≡ 256) }
    ensures { length rows.new ≡ length rows.old }
{
    for v in 1..8 {
        put_two(rows, v, used, m);
    }
}

// The rows of the lowest digit for a monic polynomial with d coefficients below the leading 1.
pub fn first_digit(f: &[u16], d: usize, m: usize) -> [u64; 256]
    requires { (9 ≤ m) × (m ≤ 16) × (d ≤ 62) × (d ≤ length f.now) }
{
    let mut rows = [0u64; 256];
    let used = (d + 3) / 4;
    pack(f, 0, d, 4 * used - d, &mut rows, 16);
    fill(&mut rows, used, m);
    rows
}

// a times the row for 8 of a digit: the unit of the next.
fn put_unit(before: &[u64; 256], rows: &mut [u64], used: usize, m: usize)
    requires { (9 ≤ m) × (m ≤ 16) × (used ≤ 16) × (length rows.old ≡ 256) }
    ensures { length rows.new ≡ length rows.old }
{
    let low = low_bits(m);
    for (word, &w) in rows[16..16 + used].iter_mut().zip(&before[128..]) {
        *word = times_a(w, m, low);
    }
}

// The rows of a digit from those of the digit before.
pub fn next_digit(before: &[u64; 256], d: usize, m: usize) -> [u64; 256]
    requires { (9 ≤ m) × (m ≤ 16) × (d ≤ 62) }
{
    let mut rows = [0u64; 256];
    let used = (d + 3) / 4;
    put_unit(before, &mut rows, used, m);
    fill(&mut rows, used, m);
    rows
}

// Where the row for a digit of the factor `top` starts.
fn digit_row(top: u64, by: usize) -> usize
    requires { by ≤ 12 }
    ensures { result ≤ 240 }
{
    let v = (top >> by) % 16;
    16 * (v as usize)
}

// One step: all coefficients move up, the highest is taken away with the multiple of f, and what is brought in stands below.
fn step(
    rows0: &[u64; 256],
    rows1: &[u64; 256],
    rows2: &[u64; 256],
    rows3: &[u64; 256],
    register: &mut [u64],
    used: usize,
    brought: u64,
)
    requires { (0 < used) × (used ≤ 16) × (length register.old ≡ 16) }
    ensures { length register.new ≡ length register.old }
{
    let top = register[used - 1] >> 48;
    let r0 = digit_row(top, 0);
    let r1 = digit_row(top, 4);
    let r2 = digit_row(top, 8);
    let r3 = digit_row(top, 12);
    let mut carry = brought;
    for i in 0..used {
        let w = register[i];
        let low = rows0[r0 + i] ^ rows1[r1 + i];
        let high = rows2[r2 + i] ^ rows3[r3 + i];
        register[i] = (w << 16) ^ carry ^ low ^ high;
        carry = w >> 48;
    }
}

// The remainder of a polynomial with `count` coefficients modulo a polynomial of degree d with the given rows; it takes the
// first d places.
pub fn reduce(
    rows0: &[u64; 256],
    rows1: &[u64; 256],
    rows2: &[u64; 256],
    rows3: &[u64; 256],
    row: &mut [u16],
    count: usize,
    d: usize,
)
    requires { (0 < d) × (d ≤ 62) × (count ≤ length row.old) }
    ensures { length row.new ≡ length row.old }
{
    if count <= d {
        return;
    }
    let used = (d + 3) / 4;
    let pad = 4 * used - d;
    let by = lane(pad);
    let mut register = [0u64; 16];
    let above = count - d;
    pack(row, above, d, pad, &mut register, 0);
    for &x in row[..above].iter().rev() {
        step(
            rows0,
            rows1,
            rows2,
            rows3,
            &mut register,
            used,
            shifted(x, by),
        );
    }
    unpack(&register, pad, row, d);
}
