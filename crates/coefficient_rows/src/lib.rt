// Rows of coefficients of polynomials, lowest power first, and products by the tables, for the root finder. A row that is multiplied
// often is kept as logarithms: 1 + the logarithm of each coefficient, and 0 for a coefficient that is 0. Nothing is promised but that
// each function is safe, whatever the tables hold: every index into a table is taken modulo the table's length.
//
//   take_logs       a row as logarithms
//   add_multiple    adds a multiple of a row
//   divide          quotient and remainder of two polynomials, in place
//   terms           how many coefficients a row has up to the last that is not 0
//   copy, copy_monic    copies a row, and a monic polynomial with its leading 1
#![tactic(auto)]

ghost use Rattle.std.specs.Prelude.{◌≡◌, ◌+◌, ◌≤◌, ◌<◌, length};

// The exponent s of a below 2^m - 1, where n is that; below the length of a table whatever it is.
pub fn wrapped(n: usize, s: usize) -> usize
    ensures { result < 16384 }
{
    let k = if s < n { s } else { s - n };
    k % 16384
}

// The logarithm of 1 / a^l.
pub fn inverse(n: usize, l: usize) -> usize
    ensures { result < 16384 }
{
    let k = if l < n { n - l } else { 0 };
    k % 16384
}

fn wide(x: u16) -> usize {
    x as usize
}

// The logarithm of an element that is not 0.
pub fn log_of(logs: &[u16; 16384], x: u16) -> usize
    ensures { result < 16384 }
{
    let i = wide(x) % 16384;
    wide(logs[i]) % 16384
}

// 1 + the logarithm of an element, 0 for 0.
pub fn marked_log(logs: &[u16; 16384], x: u16) -> u16
    ensures { result ≤ 16384 }
{
    if x == 0 {
        return 0;
    }
    let l = log_of(logs, x);
    (l + 1) as u16
}

// a^e times the element with the given logarithm.
pub fn scaled_term(powers: &[u16; 16384], n: usize, log: u16, e: usize) -> u16
    requires { e < 16384 }
{
    if log == 0 {
        return 0;
    }
    let l = log as usize;
    let k = wrapped(n, l - 1 + e);
    powers[k]
}

// The logarithms of `count` terms from `at` on.
pub fn take_logs(
    logs: &[u16; 16384],
    row: &[u16],
    at: usize,
    out: &mut [u16],
    to: usize,
    count: usize,
)
    requires { (at + count ≤ length row.now) × (to + count ≤ length out.old) }
    ensures { length out.new ≡ length out.old }
{
    for (log, &x) in out[to..to + count].iter_mut().zip(&row[at..]) {
        *log = marked_log(logs, x);
    }
}

// Adds a^e times a row of `count` logarithms from `at` on to the terms from `to` on.
pub fn add_multiple(
    powers: &[u16; 16384],
    n: usize,
    sum: &mut [u16],
    to: usize,
    row: &[u16],
    at: usize,
    e: usize,
    count: usize,
)
    requires { (to + count ≤ length sum.old) × (at + count ≤ length row.now) × (e < 16384) }
    ensures { length sum.new ≡ length sum.old }
{
    for (term, &log) in sum[to..to + count].iter_mut().zip(&row[at..]) {
        *term ^= scaled_term(powers, n, log, e);
    }
}

// One step of a division: takes away the term `low` places above `from`, and leaves its coefficient of the quotient there.
fn divide_step(
    powers: &[u16; 16384],
    logs: &[u16; 16384],
    n: usize,
    a: &mut [u16],
    from: usize,
    divisor: &[u16],
    low: usize,
    lead: usize,
)
    requires { (from + low < length a.old) × (low ≤ length divisor.now) × (lead < 16384) }
    ensures { length a.new ≡ length a.old }
{
    let top = from + low;
    let q = a[top];
    if q == 0 {
        return;
    }
    let l = log_of(logs, q);
    let e = wrapped(n, l + lead);
    add_multiple(powers, n, a, from, divisor, 0, e, low);
    a[top] = powers[e];
}

// Divides `count` terms from `at` on by a polynomial with `low` logarithms and one more term, 1 / a^lead. The first `low`
// terms become the remainder, those above the quotient.
pub fn divide(
    powers: &[u16; 16384],
    logs: &[u16; 16384],
    n: usize,
    a: &mut [u16],
    at: usize,
    count: usize,
    divisor: &[u16],
    low: usize,
    lead: usize,
)
    requires { (at + count ≤ length a.old) × (low ≤ length divisor.now) × (lead < 16384) }
    ensures { length a.new ≡ length a.old }
{
    for i in (low..count).rev() {
        let from = at + i - low;
        divide_step(powers, logs, n, a, from, divisor, low, lead);
    }
}

// The number of terms up to the last that is not 0, of `count` terms from `at` on.
pub fn terms(row: &[u16], at: usize, count: usize) -> usize
    requires { at + count ≤ length row.now }
    ensures { result ≤ count }
{
    let last = row[at..at + count].iter().rposition(|&x| x != 0);
    last.map_or(0, |k| k + 1)
}

// Copies `count` terms.
pub fn copy(row: &[u16], at: usize, out: &mut [u16], to: usize, count: usize)
    requires { (at + count ≤ length row.now) × (to + count ≤ length out.old) }
    ensures { length out.new ≡ length out.old }
{
    out[to..to + count].copy_from_slice(&row[at..at + count]);
}

// Copies a monic polynomial of degree d, which stands as its d terms below the leading 1, with that.
pub fn copy_monic(row: &[u16], at: usize, out: &mut [u16], d: usize)
    requires { (at + d ≤ length row.now) × (d < length out.old) }
    ensures { length out.new ≡ length out.old }
{
    copy(row, at, out, 0, d);
    out[d] = 1;
}
