// The roots of a polynomial of degree 3 or 4 that has as many in the field. It is brought to the form x^4 + a x^2 + b x + c, whose terms
// but the last are linear over the bits: the roots are one solution of a linear system plus each solution for c = 0.
//
//   affine_roots    the roots of a factor of degree 3 or 4
//
// A row of the system is a word: what the linear terms make of an element in its upper 16 bits, and the element in its lower ones.
ghost use Rattle.std.specs.Prelude.{◌≡◌, ◌<◌, ◌≤◌, length};

use coefficient_rows::{inverse, log_of, marked_log, scaled_term, wrapped};

// What a root y stands for: y + s, or 1 / y + s.
#[derive(Clone, Copy)]
enum Origin {
    Shifted(u16),
    Inverted(u16),
}

// x^4 + a x^2 + b x + c, and what a root of it stands for.
#[derive(Clone, Copy)]
struct Affine {
    a: u16,
    b: u16,
    c: u16,
    origin: Origin,
}

// The product of two elements.
fn times(powers: &[u16; 16384], logs: &[u16; 16384], n: usize, x: u16, y: u16) -> u16 {
    if x == 0 || y == 0 {
        return 0;
    }
    let e = wrapped(n, log_of(logs, x) + log_of(logs, y));
    powers[e]
}

// 1 / x. The exponent is 2^m - 1 where x is 1, and is wrapped.
fn inverted(powers: &[u16; 16384], logs: &[u16; 16384], n: usize, x: u16) -> u16 {
    let e = wrapped(n, inverse(n, log_of(logs, x)));
    powers[e]
}

// The square root of an element: an odd logarithm is one even number less 2^m - 1.
fn square_root(powers: &[u16; 16384], logs: &[u16; 16384], n: usize, x: u16) -> u16 {
    if x == 0 {
        return 0;
    }
    let l = log_of(logs, x);
    let half = l / 2;
    let k = if l % 2 == 0 { half } else { half + n / 2 + 1 };
    let e = k % 16384;
    powers[e]
}

// x^3 + a x^2 + b x + c at y + a, times y: its root 0 is none of the cubic.
fn of_cubic(
    powers: &[u16; 16384],
    logs: &[u16; 16384],
    n: usize,
    a: u16,
    b: u16,
    c: u16,
) -> Affine {
    Affine {
        a: times(powers, logs, n, a, a) ^ b,
        b: times(powers, logs, n, a, b) ^ c,
        c: 0,
        origin: Origin::Shifted(a),
    }
}

// x^4 + a x^3 + b x^2 + c x + d at 1 / y + s, where s^2 = c / a: so there is no term of degree 1 in 1 / y, and none of degree 3 in y.
fn of_quartic(
    powers: &[u16; 16384],
    logs: &[u16; 16384],
    n: usize,
    a: u16,
    b: u16,
    c: u16,
    d: u16,
) -> Affine {
    if a == 0 {
        return Affine {
            a: b,
            b: c,
            c: d,
            origin: Origin::Shifted(0),
        };
    }
    let square = times(powers, logs, n, c, inverted(powers, logs, n, a));
    let s = square_root(powers, logs, n, square);
    let second = times(powers, logs, n, a, s) ^ b;
    let last = times(powers, logs, n, square, square ^ b) ^ d;
    let unit = inverted(powers, logs, n, last);
    Affine {
        a: times(powers, logs, n, second, unit),
        b: times(powers, logs, n, a, unit),
        c: unit,
        origin: Origin::Inverted(s),
    }
}

// A row of the system: its upper and its lower half.
fn row_of(image: u16, element: u16) -> u32 {
    (u32::from(image) << 16) ^ u32::from(element)
}

// Rows 0 to m - 1 for the powers of a, and c in row 15.
fn system(powers: &[u16; 16384], logs: &[u16; 16384], n: usize, m: usize, p: Affine) -> [u32; 16]
    requires { m ≤ 15 }
{
    let a = marked_log(logs, p.a);
    let b = marked_log(logs, p.b);
    let mut rows = [0u32; 16];
    for i in 0..m {
        let second = scaled_term(powers, n, a, 2 * i);
        let first = scaled_term(powers, n, b, i);
        rows[i] = row_of(powers[4 * i] ^ second ^ first, powers[i]);
    }
    rows[15] = row_of(p.c, 0);
    rows
}

// Adds a row to each that has the given bit.
fn add_where(rows: &mut [u32; 16], row: u32, bit: u32)
    requires { length rows.old ≡ 16 }
    ensures { length rows.new ≡ length rows.old }
{
    for x in rows {
        *x ^= if *x & bit == 0 { 0 } else { row };
    }
}

// Solves the system: of each of the first m rows the lowest bit of its upper half, where there is one, is cleared in all rows. The row
// itself becomes zero; a row with no such bit has an element that the linear terms make 0.
fn eliminate(rows: &mut [u32; 16], m: usize)
    requires { (m ≤ 15) × (length rows.old ≡ 16) }
    ensures { length rows.new ≡ length rows.old }
{
    for k in 0..m {
        let row = rows[k];
        let image = row & 0xffff0000;
        let bit = image & image.wrapping_neg();
        add_where(rows, row, bit);
    }
}

fn lower(row: u32) -> u16 {
    (row % 65536) as u16
}

// The solutions: that in row 15, and its sums with the two elements that are left in the first m rows.
fn solutions(rows: &[u32; 16], m: usize) -> [u16; 4]
    requires { m ≤ 15 }
{
    let mut first: u16 = 0;
    let mut second: u16 = 0;
    for &row in &rows[..m] {
        let x = lower(row);
        if x != 0 {
            second = first;
            first = x;
        }
    }
    let last = lower(rows[15]);
    [last, last ^ first, last ^ second, last ^ first ^ second]
}

// The root that y stands for.
fn stands_for(powers: &[u16; 16384], logs: &[u16; 16384], n: usize, p: Affine, y: u16) -> u16 {
    match p.origin {
        Origin::Shifted(s) => y ^ s,
        Origin::Inverted(s) => inverted(powers, logs, n, y) ^ s,
    }
}

// The form of the factor of degree g, 3 or 4, at `at`.
fn affine_of(
    powers: &[u16; 16384],
    logs: &[u16; 16384],
    n: usize,
    factors: &[u16; 64],
    at: usize,
    g: usize,
) -> Affine
    requires { at ≤ 60 }
{
    let d = factors[at];
    let c = factors[at + 1];
    let b = factors[at + 2];
    if g == 3 {
        return of_cubic(powers, logs, n, b, c, d);
    }
    let a = factors[at + 3];
    of_quartic(powers, logs, n, a, b, c, d)
}

// The roots of the factor of degree g, 3 or 4, at `at`; where it is 3, the first place is of no meaning.
pub fn affine_roots(
    powers: &[u16; 16384],
    logs: &[u16; 16384],
    n: usize,
    m: usize,
    factors: &[u16; 64],
    at: usize,
    g: usize,
) -> [u16; 4]
    requires { (m ≤ 15) × (at ≤ 60) }
{
    let p = affine_of(powers, logs, n, factors, at, g);
    let mut rows = system(powers, logs, n, m, p);
    eliminate(&mut rows, m);
    let mut roots = solutions(&rows, m);
    for root in &mut roots {
        *root = stands_for(powers, logs, n, p, *root);
    }
    roots
}
