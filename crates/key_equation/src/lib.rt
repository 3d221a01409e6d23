// The key equation: the algorithm of Berlekamp and Massey, which finds the shortest recurrence of the power sums of a word.
//
//   shortest     the shortest recurrence of 2t power sums: its coefficients are those of the error locator, the lowest power first
//
// A word of bits has power sums of which every second is a square. So every second discrepancy is zero, and a step takes two terms.
// Products go by the tables of powers and logarithms that the caller lends. Sums stop at the length in use; past it all is zero.
// The laws of the algorithm are those of crate `algebra`; proofs/KeyEquation.antt carries them over to numbers.
#![tactic(auto)]

ghost use Rattle.std.specs.Prelude.{◌≡◌, true, false, suc, ◌+◌, ◌-◌, ◌<◌, ◌≤◌};
ghost use Rattle.algebra.specs.Array.{dot, Holds};
ghost use Rattle.field.specs.Tables.{Tables};
ghost use Rattle.field.proofs.Instance.{gf, num};
ghost use Rattle.series.specs.Series.{Represents, Elements};
ghost use Rattle.key_equation.specs.KeyEquation.{PowerSums};

use field::Field;
use field_tables::{product_by_tables, quotient};
use series::mix;

// What the algorithm holds: the recurrence c of length len, and its update u, which counts with `gap` zeros before it and has the
// discrepancy b.
// By hand: (a) no heap: fixed room, and how much of it is in use.
#[derive(Drop)]
pub struct Recurrence {
    pub c: [u16; 128],
    pub u: [u16; 128],
    pub b: u16,
    pub len: usize,
    pub gap: usize,
}

// The numbers beside the two arrays, which the steps change in place.
#[derive(Drop)]
pub struct Numbers {
    pub b: u16,
    pub len: usize,
    pub gap: usize,
}

// The coefficient at k of the product of recurrence and power sums: c_0 s_k + .. + c_len s_(k - len).
fn discrepancy(
    f: Field,
    powers: &[u16; 16384],
    logs: &[u16; 16384],
    s: &[u16; 128],
    c: &[u16; 128],
    len: usize,
    k: usize,
) -> u16
    requires tables { Tables f powers.now logs.now }
    requires len_le_k { (len ≤ k) × (k < 128) }
    requires elements { (Elements f s.now) × (Elements f c.now) }
    ensures { Represents f (gf f) (num f) (dot (gf f) (num f) c.now s.now k (suc len)) result }
{
    let mut sum: u16 = 0;
    for i in 0..len + 1 {
        let p = product_by_tables(f, powers, logs, c[i], s[k - i]);
        sum ^= p;
    }
    sum
}

// Whether a recurrence that fails at k keeps its length.
fn keeps_length(k: usize, len: usize) -> bool
    requires { (len ≤ k) × (k < 128) }
    ensures { (result ≡ true → k < len + len) × (result ≡ false → len + len ≤ k) }
{
    let twice = len + len;
    k < twice
}

// The length of a recurrence that failed at k and was too short.
fn grown_length(k: usize, len: usize) -> usize
    requires { (len ≤ k) × (k < 128) }
    ensures { result ≡ k + 1 - len }
{
    k + 1 - len
}

// One step of the algorithm, by the power sums 2h and 2h + 1.
fn step(
    f: Field,
    powers: &[u16; 16384],
    logs: &[u16; 16384],
    s: &[u16; 128],
    t: usize,
    h: usize,
    c: &mut [u16; 128],
    u: &mut [u16; 128],
    r: Numbers,
) -> Numbers
    requires tables { Tables f powers.now logs.now }
    requires h_lt_t { (h < t) × (t ≤ 62) × (PowerSums f s.now t) }
    requires holds { Holds (gf f) (num f) s.now h r.len r.b c.old u.old r.gap }
    ensures { Holds (gf f) (num f) s.now (h + 1) result.len result.b c.new u.new result.gap }
{
    let b = r.b;
    let len = r.len;
    let gap = r.gap;
    let k = h + h;
    let d = discrepancy(f, powers, logs, s, c, len, k);
    if d == 0 {
        let wider = gap + 2;
        return Numbers {
            b: b,
            len: len,
            gap: wider,
        };
    }
    let e = quotient(f, powers, logs, d, b);
    let terms = k + 2 - len - gap;
    if keeps_length(k, len) {
        mix(f, powers, logs, c, u, e, gap, terms);
        let wider = gap + 2;
        return Numbers {
            b: b,
            len: len,
            gap: wider,
        };
    }
    let before = *c;
    mix(f, powers, logs, c, u, e, gap, terms);
    *u = before;
    let grown = grown_length(k, len);
    Numbers {
        b: d,
        len: grown,
        gap: 2,
    }
}

// The shortest recurrence of the first 2t power sums s of a word.
pub fn shortest(
    f: Field,
    powers: &[u16; 16384],
    logs: &[u16; 16384],
    s: &[u16; 128],
    t: usize,
) -> Recurrence
    requires tables { Tables f powers.now logs.now }
    requires t_bound { (t ≤ 62) × (PowerSums f s.now t) }
    ensures { Holds (gf f) (num f) s.now t result.len result.b result.c result.u result.gap }
{
    let mut c = [0; 128];
    c[0] = 1;
    let mut u = c;
    let mut r = Numbers {
        b: 1,
        len: 0,
        gap: 1,
    };
    for h in 0..t {
        r = step(f, powers, logs, s, t, h, &mut c, &mut u, r);
    }
    Recurrence {
        c: c,
        u: u,
        b: r.b,
        len: r.len,
        gap: r.gap,
    }
}
