// A root of x^2 + b x + c with b not 0: b y, where y^2 + y = c / b^2. The map of y to y^2 + y is linear over the bits, so y is a sum
// of stored solutions, one for each bit (`scripts/half-solutions.py` prints them).
//
//   root    a root of a factor of degree 1 or 2
ghost use Rattle.std.specs.Prelude.{◌≡◌, ◌<◌};

use coefficient_rows::{inverse, log_of, wrapped};
use field::Field;

// For each bit j a solution y of y^2 + y = a^j for m = 13; where a^j has the trace 1, of y^2 + y = a^j + 1.
static HALVES_13: [u16; 14] = [
    0, 5376, 5378, 898, 5382, 5276, 906, 280, 5398, 3324, 5308, 4110, 970, 0,
];

// For each bit j a solution y of y^2 + y = a^j for m = 14; where a^j has the trace 1, of y^2 + y = a^j + a^9.
static HALVES_14: [u16; 14] = [
    8648, 8284, 8286, 9038, 8282, 7502, 9030, 16148, 8266, 0, 7534, 1340, 8966, 10314,
];

// A solution y of y^2 + y = v, where there is one.
fn half(f: Field, v: u16) -> u16 {
    let halves = match f {
        Field::Thirteen => &HALVES_13,
        Field::Fourteen => &HALVES_14,
    };
    let mut y: u16 = 0;
    let mut left = v;
    for &part in halves {
        y ^= if left % 2 == 0 { 0 } else { part };
        left /= 2;
    }
    y
}

// A root of x + c, if the degree is 1, or of x^2 + b x + c.
pub fn root(
    f: Field,
    powers: &[u16; 16384],
    logs: &[u16; 16384],
    n: usize,
    degree: usize,
    b: u16,
    c: u16,
) -> u16 {
    if degree == 1 {
        return c;
    }
    let scale = log_of(logs, b);
    let back = inverse(n, scale);
    let once = wrapped(n, log_of(logs, c) + back);
    let twice = wrapped(n, once + back);
    let y = half(f, powers[twice]);
    if y == 0 {
        return 0;
    }
    let e = wrapped(n, log_of(logs, y) + scale);
    powers[e]
}
