// Splitting of factors by a trace, for the root finder: the greatest common divisor of a factor and a trace has the roots at which
// the trace is 0. Factors are monic and stand side by side, a factor of degree g as its g coefficients below the leading 1. Nothing is
// promised but that each function is safe.
//
//   split_all    splits each factor of degree 3 or more, where the trace does
//   fitted       the degree that is noted for a factor
#![tactic(auto)]

ghost use Rattle.std.specs.Prelude.{◌≡◌, ◌+◌, ◌≤◌, ◌<◌, length};

use coefficient_rows::{add_multiple, copy, copy_monic, divide, inverse, take_logs, terms};

// A polynomial in one half of a pair of rows: where it starts, and its number of terms.
#[derive(Drop)]
struct Part {
    side: usize,
    terms: usize,
}

// The exponent of 1 / v, where v has the given logarithm.
fn inverse_lead(n: usize, log: u16) -> usize
    ensures { result < 16384 }
{
    if log == 0 {
        return 0;
    }
    inverse(n, log as usize - 1)
}

// The greatest common divisor of two polynomials by Euclid's algorithm: one of `first` terms from 0 on, and one of `second` terms
// from 64 on.
fn common(
    powers: &[u16; 16384],
    logs: &[u16; 16384],
    n: usize,
    pair: &mut [u16],
    first: usize,
    second: usize,
) -> Part
    requires { (length pair.old ≡ 128) × (0 < first) × (first ≤ 64) × (second ≤ 64) }
    ensures { (length pair.new ≡ length pair.old) × (result.side ≤ 64) × (0 < result.terms) × (result.terms ≤ 64) }
{
    let mut divisor = [0u16; 64];
    let mut side: usize = 0;
    let mut long = first;
    let mut short = second;
    while 1 < short {
        let other = 64 - side;
        let low = short - 1;
        take_logs(logs, pair, other, &mut divisor, 0, short);
        let lead = inverse_lead(n, divisor[low]);
        divide(powers, logs, n, pair, side, long, &divisor, low, lead);
        let rest = terms(pair, side, low);
        side = other;
        long = short;
        short = rest;
    }
    if short == 0 {
        return Part {
            side: side,
            terms: long,
        };
    }
    Part {
        side: side,
        terms: 1,
    }
}

// The h terms below the leading one of a polynomial of degree h, made monic.
fn made_monic(
    powers: &[u16; 16384],
    logs: &[u16; 16384],
    n: usize,
    row: &[u16],
    at: usize,
    h: usize,
) -> [u16; 64]
    requires { (h < 64) × (at + h < length row.now) }
{
    let mut divisor = [0u16; 64];
    let mut monic = [0u16; 64];
    take_logs(logs, row, at, &mut divisor, 0, h + 1);
    let lead = inverse_lead(n, divisor[h]);
    add_multiple(powers, n, &mut monic, 0, &divisor, 0, lead, h);
    monic
}

// A factor of degree g divided by a monic polynomial of degree h: the quotient's terms stand from h on.
fn divided(
    powers: &[u16; 16384],
    logs: &[u16; 16384],
    n: usize,
    factors: &[u16],
    at: usize,
    g: usize,
    monic: &[u16; 64],
    h: usize,
) -> [u16; 64]
    requires { (h < g) × (at + g ≤ 62) × (length factors.now ≡ 64) }
{
    let mut divisor = [0u16; 64];
    let mut whole = [0u16; 64];
    take_logs(logs, monic, 0, &mut divisor, 0, h);
    copy_monic(factors, at, &mut whole, g);
    divide(powers, logs, n, &mut whole, 0, g + 1, &divisor, h, 0);
    whole
}

// Puts two rows in the place of a factor of degree g: h terms of the first, and those of the second from h on.
fn put_parts(
    factors: &mut [u16],
    at: usize,
    g: usize,
    first: &[u16; 64],
    second: &[u16; 64],
    h: usize,
)
    requires { (h < g) × (at + g ≤ 62) × (length factors.old ≡ 64) }
    ensures { length factors.new ≡ length factors.old }
{
    let next = at + h;
    let rest = g - h;
    copy(first, 0, factors, at, h);
    copy(second, h, factors, next, rest);
}

// Puts a divisor of degree h, made monic, and the quotient in the place of a factor of degree g.
fn put_split(
    powers: &[u16; 16384],
    logs: &[u16; 16384],
    n: usize,
    pair: &[u16],
    side: usize,
    h: usize,
    factors: &mut [u16],
    at: usize,
    g: usize,
)
    requires { (length pair.now ≡ 128) × (side ≤ 64) × (h < g) × (at + g ≤ 62) × (length factors.old ≡ 64) }
    ensures { length factors.new ≡ length factors.old }
{
    let first = made_monic(powers, logs, n, pair, side, h);
    let second = divided(powers, logs, n, factors, at, g, &first, h);
    put_parts(factors, at, g, &first, &second, h);
}

// A factor of degree g, and from 64 on a trace modulo that factor; the trace is given modulo f, which has degree d.
fn factor_and_trace(
    powers: &[u16; 16384],
    logs: &[u16; 16384],
    n: usize,
    trace: &[u16],
    d: usize,
    factors: &[u16],
    at: usize,
    g: usize,
) -> [u16; 128]
    requires { (d ≤ 62) × (length trace.now ≡ 64) × (at + g ≤ 62) × (length factors.now ≡ 64) }
{
    let mut pair = [0u16; 128];
    let mut divisor = [0u16; 64];
    copy_monic(factors, at, &mut pair, g);
    copy(trace, 0, &mut pair, 64, d);
    take_logs(logs, factors, at, &mut divisor, 0, g);
    divide(powers, logs, n, &mut pair, 64, d, &divisor, g, 0);
    pair
}

// Splits a factor of degree g by a trace modulo f, which has degree d. The degree of the part that stands first, g if it is whole.
fn split(
    powers: &[u16; 16384],
    logs: &[u16; 16384],
    n: usize,
    trace: &[u16],
    d: usize,
    factors: &mut [u16],
    at: usize,
    g: usize,
) -> usize
    requires { (d ≤ 62) × (length trace.now ≡ 64) × (0 < g) × (at + g ≤ 62) × (length factors.old ≡ 64) }
    ensures { (length factors.new ≡ length factors.old) × (0 < result) × (result ≤ g) }
{
    if g < 3 {
        return g;
    }
    let mut pair = factor_and_trace(powers, logs, n, trace, d, factors, at, g);
    let rest = terms(&pair, 64, g);
    let found = common(powers, logs, n, &mut pair, g + 1, rest);
    let side = found.side;
    let h = found.terms - 1;
    if h == 0 || g <= h {
        return g;
    }
    put_split(powers, logs, n, &pair, side, h, factors, at, g);
    h
}

// The degree that is noted for a factor, made to fit the room that there is.
pub fn fitted(degree: u16, room: usize) -> usize
    requires { 0 < room }
    ensures { (0 < result) × (result ≤ room) }
{
    let g = degree as usize;
    if g == 0 { room } else { g.min(room) }
}

// Notes the degrees of the two parts of a factor of degree g, of which the first has degree h; none where it is whole.
fn note(degrees: &mut [u16], at: usize, h: usize, g: usize)
    requires { (h ≤ g) × (at + g ≤ 62) × (length degrees.old ≡ 64) }
    ensures { length degrees.new ≡ length degrees.old }
{
    if g <= h {
        return;
    }
    let next = at + h;
    let rest = g - h;
    degrees[next] = rest as u16;
    degrees[at] = h as u16;
}

// Splits each factor by a trace modulo f, whose degree is d. The largest degree that is left.
pub fn split_all(
    powers: &[u16; 16384],
    logs: &[u16; 16384],
    n: usize,
    trace: &[u16],
    d: usize,
    factors: &mut [u16],
    degrees: &mut [u16],
) -> usize
    requires { (d ≤ 62) × (length trace.now ≡ 64) × (length factors.old ≡ 64) × (length degrees.old ≡ 64) }
    ensures { (length factors.new ≡ length factors.old) × (length degrees.new ≡ length degrees.old) }
{
    let mut largest: usize = 0;
    let mut at: usize = 0;
    // By hand: (d) no loop by an index: its step is the degree of a factor, read on the way.
    while at < d {
        let g = fitted(degrees[at], d - at);
        let h = split(powers, logs, n, trace, d, factors, at, g);
        note(degrees, at, h, g);
        largest = largest.max(h).max(g - h);
        at += g;
    }
    largest
}
