// Traces modulo a polynomial. The trace of v is v + v^2 + v^4 + .. + v^(2^(m - 1)); it is 0 or 1 at each element of the field. That of
// a^i x modulo f is a sum of multiples of x^(2^k) modulo f, which are made once.
//
//   conjugates    the logarithms of x^(2^k) modulo f, and whether x^(2^m) modulo f is x
//   trace         the trace of a^i x modulo f
ghost use Rattle.std.specs.Prelude.{◌≡◌, ◌+◌, ◌*◌, ◌<◌, ◌≤◌, length};

use coefficient_rows::{add_multiple, take_logs, terms, wrapped};
use packed_remainder::{first_digit, next_digit, reduce};

// The square of an element by its logarithm.
fn square_term(powers: &[u16; 16384], n: usize, log: u16) -> u16 {
    if log == 0 {
        return 0;
    }
    let l = log as usize - 1;
    let k = wrapped(n, l + l);
    powers[k]
}

// The square of a polynomial with `count` logarithms from `at` on.
fn square(powers: &[u16; 16384], n: usize, row: &[u16], at: usize, out: &mut [u16], count: usize)
    requires { (at + count ≤ length row.now) × (2 * count ≤ length out.old) }
    ensures { length out.new ≡ length out.old }
{
    for (j, &log) in row[at..at + count].iter().enumerate() {
        out[2 * j] = square_term(powers, n, log);
        out[2 * j + 1] = 0;
    }
}

// Whether the first `count` terms are those of x.
fn is_x(row: &[u16], count: usize) -> bool
    requires { count ≤ length row.now }
{
    row[..count]
        .iter()
        .enumerate()
        .all(|(j, &c)| c == u16::from(j == 1))
}

// Squares x m times modulo a polynomial of degree d with the given digits, and leaves the logarithms of x^(2^k) in row k. Whether the
// last square is x.
fn raise(
    powers: &[u16; 16384],
    logs: &[u16; 16384],
    n: usize,
    m: usize,
    rows0: &[u64; 256],
    rows1: &[u64; 256],
    rows2: &[u64; 256],
    rows3: &[u64; 256],
    d: usize,
    rows: &mut [u16],
) -> bool
    requires { (m ≤ 16) × (0 < d) × (d ≤ 62) × (length rows.old ≡ 1024) }
    ensures { length rows.new ≡ length rows.old }
{
    let mut power = [0u16; 128];
    power[1] = 1;
    for k in 0..m {
        let at = 64 * k;
        take_logs(logs, &power, 0, rows, at, d);
        square(powers, n, rows, at, &mut power, d);
        let count = terms(&power, 0, d + d);
        reduce(rows0, rows1, rows2, rows3, &mut power, count, d);
    }
    is_x(&power, d)
}

// Row k of 64 places becomes the logarithms of x^(2^k) modulo f, for k < m, where f has the d coefficients `factor` below
// its leading 1. Whether x^(2^m) modulo f is x: so it is where all roots of f lie in the field and are distinct.
pub fn conjugates(
    powers: &[u16; 16384],
    logs: &[u16; 16384],
    n: usize,
    m: usize,
    factor: &[u16],
    d: usize,
    rows: &mut [u16],
) -> bool
    requires { (9 ≤ m) × (m ≤ 16) × (0 < d) × (d ≤ 62) × (d ≤ length factor.now) × (length rows.old ≡ 1024) }
    ensures { length rows.new ≡ length rows.old }
{
    let rows0 = first_digit(factor, d, m);
    let rows1 = next_digit(&rows0, d, m);
    let rows2 = next_digit(&rows1, d, m);
    let rows3 = next_digit(&rows2, d, m);
    raise(powers, logs, n, m, &rows0, &rows1, &rows2, &rows3, d, rows)
}

// The trace of a^i x modulo f, by the rows of its conjugates; `out` is 0 before.
pub fn trace(
    powers: &[u16; 16384],
    n: usize,
    m: usize,
    i: usize,
    rows: &[u16],
    d: usize,
    out: &mut [u16],
)
    requires { (m ≤ 16) × (i < 16384) × (d ≤ 62) × (length rows.now ≡ 1024) × (d ≤ length out.old) }
    ensures { length out.new ≡ length out.old }
{
    let mut e = i;
    for k in 0..m {
        add_multiple(powers, n, out, 0, rows, 64 * k, e, d);
        e = wrapped(n, e + e);
    }
}
