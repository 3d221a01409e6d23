// The roots of an error locator, fast: Berlekamp's trace algorithm. Nothing is promised but that it is safe and ends: the caller
// rechecks what is proposed, and has a complete search behind it. So every index into a table is taken modulo the table's length.
//
//   find_roots    the exponents p, the highest first, for which a^p is a root
//
// 1. A factor of degree 1 is read off, one of degree 2 solved by stored solutions of y^2 + y = v (quadratic.rt), one of degree 3 or 4
//    by a linear system (affine.rt).
// 2. A larger polynomial has all its roots in the field, and distinct, only if x^(2^m) modulo f is x; else there is nothing to
//    propose (trace.rt, by the remainders of crate `packed_remainder`).
// 3. The trace of a^i x is 0 at some of the roots and 1 at the others, so it splits factors (crate `splitting`). The traces for i < m
//    together tell every two elements apart, so m rounds are enough.
#![tactic(auto)]

ghost use Rattle.std.specs.Prelude.{◌≡◌, ◌+◌, ◌<◌, ◌≤◌, length};

use affine::affine_roots;
use coefficient_rows::log_of;
use field::Field;
use quadratic::root;
use splitting::{fitted, split_all};
use trace::{conjugates, trace};

mod affine;
mod quadratic;
mod trace;

// c_len, .., c_1: the coefficients of c_0 x^len + .. + c_len below the leading one, lowest power first.
fn reversed(c: &[u16; 128], len: usize) -> [u16; 64]
    requires { len ≤ 62 }
{
    let mut row = [0u16; 64];
    for (term, &x) in row.iter_mut().zip(c[1..len + 1].iter().rev()) {
        *term = x;
    }
    row
}

// m: so many conjugates has an element, and so many traces tell every two elements apart.
fn degree_of(f: Field) -> usize
    ensures { (9 ≤ result) × (result ≤ 15) }
{
    f.degree() as usize
}

// Splits a polynomial of degree d, in `factors`, until no degree is above 4; whether it came to that.
fn split_fully(
    f: Field,
    powers: &[u16; 16384],
    logs: &[u16; 16384],
    d: usize,
    factors: &mut [u16],
    degrees: &mut [u16],
) -> bool
    requires { (0 < d) × (d ≤ 62) × (length factors.old ≡ 64) × (length degrees.old ≡ 64) }
    ensures { (length factors.new ≡ length factors.old) × (length degrees.new ≡ length degrees.old) }
{
    let n = f.longest() as usize;
    let m = degree_of(f);
    let mut rows = [0u16; 1024];
    if !conjugates(powers, logs, n, m, factors, d, &mut rows) {
        return false;
    }
    for i in 0..m {
        let mut t = [0u16; 64];
        trace(powers, n, m, i, &rows, d, &mut t);
        if split_all(powers, logs, n, &t, d, factors, degrees) < 5 {
            return true;
        }
    }
    false
}

// Puts p into the descending list of the first `count` places.
fn insert(places: &mut [u16], count: usize, p: u16)
    requires { (count < 64) × (length places.old ≡ 64) }
    ensures { length places.new ≡ length places.old }
{
    for k in (0..count).rev() {
        let before = places[k];
        if p < before {
            places[k + 1] = p;
            return;
        }
        places[k + 1] = before;
    }
    places[0] = p;
}

// Puts the logarithm of root k of a factor of degree g at `at` into the list of places, where there is such a root.
fn put_root(logs: &[u16; 16384], at: usize, g: usize, k: usize, z: u16, places: &mut [u16])
    requires { (at ≤ 59) × (k < 4) × (length places.old ≡ 64) }
    ensures { length places.new ≡ length places.old }
{
    if g <= k {
        return;
    }
    insert(places, at + k, log_of(logs, z) as u16);
}

// Puts the logarithms of the roots of the factor at `at`, which has the degree 3 or 4, into the list of places.
fn put_affine_roots(
    f: Field,
    powers: &[u16; 16384],
    logs: &[u16; 16384],
    factors: &[u16; 64],
    at: usize,
    g: usize,
    places: &mut [u16],
)
    requires { (at ≤ 59) × (length places.old ≡ 64) }
    ensures { length places.new ≡ length places.old }
{
    let n = f.longest() as usize;
    let m = degree_of(f);
    let roots = affine_roots(powers, logs, n, m, factors, at, g);
    for (k, &z) in roots.iter().rev().enumerate() {
        put_root(logs, at, g, k, z, places);
    }
}

// Puts the logarithms of the roots of the factor at `at`, which has the degree g, into the list of places.
fn put_roots(
    f: Field,
    powers: &[u16; 16384],
    logs: &[u16; 16384],
    factors: &[u16; 64],
    at: usize,
    g: usize,
    places: &mut [u16],
)
    requires { (0 < g) × (at + g ≤ 62) × (length places.old ≡ 64) }
    ensures { length places.new ≡ length places.old }
{
    if 2 < g {
        put_affine_roots(f, powers, logs, factors, at, g, places);
        return;
    }
    let n = f.longest() as usize;
    let c = factors[at];
    let b = factors[at + 1];
    let z = root(f, powers, logs, n, g, b, c);
    insert(places, at, log_of(logs, z) as u16);
    if 1 < g {
        insert(places, at + 1, log_of(logs, z ^ b) as u16);
    }
}

// The places of the roots of factors whose degrees are at most 4.
fn read_off(
    f: Field,
    powers: &[u16; 16384],
    logs: &[u16; 16384],
    factors: &[u16; 64],
    degrees: &[u16; 64],
    d: usize,
) -> [u16; 64]
    requires { d ≤ 62 }
{
    let mut places = [0u16; 64];
    let mut at: usize = 0;
    // By hand: (d) no loop by an index: its step is the degree of a factor, read on the way.
    while at < d {
        let g = fitted(degrees[at], d - at);
        put_roots(f, powers, logs, factors, at, g, &mut places);
        at += g;
    }
    places
}

// Proposes the places p, the highest first, for which a^p is a root of c_0 x^len + .. + c_len, where c_0 is 1. Where it finds no
// `len` roots the places are of no meaning.
pub fn find_roots(
    f: Field,
    powers: &[u16; 16384],
    logs: &[u16; 16384],
    c: &[u16; 128],
    len: usize,
) -> [u16; 64] {
    let nothing = [0u16; 64];
    if len == 0 || 62 < len {
        return nothing;
    }
    let mut factors = reversed(c, len);
    let mut degrees = [0u16; 64];
    degrees[0] = len as u16;
    if 4 < len && !split_fully(f, powers, logs, len, &mut factors, &mut degrees) {
        return nothing;
    }
    read_off(f, powers, logs, &factors, &degrees, len)
}
