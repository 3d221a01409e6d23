// Whether a locator may have as many roots among the powers of a as its degree: only if x^(2^m) modulo the locator is x. Where it is
// not, no search is needed. A polynomial is an array of coefficients, the highest power first.
//
//   cannot_split    true only where the roots are too few
//
// x is squared m times, and each square is divided by the locator. Squares and remainders keep the values at its roots.
#![tactic(auto)]

ghost use Rattle.std.specs.Prelude.{◌≡◌, true, false, ℕ, suc, ◌+◌, ◌<◌, ◌≤◌, get_or};
ghost use Rattle.field.specs.Tables.{Tables};
ghost use Rattle.field.proofs.Instance.{gf, num, a};
ghost use Rattle.series.specs.Series.{Elements};
ghost use Rattle.bits.specs.Decides.{Decides};
ghost use Rattle.split_test.specs.Splitting.{Divisor, Splits, Spread, Cleared, Reduced, Lowered, Squared};

use field::Field;
use field_tables::{product_by_tables, quotient};
use series::mix;

// The squares of the first n coefficients, with zeros between: the square of the polynomial.
fn spread(
    f: Field,
    powers: &[u16; 16384],
    logs: &[u16; 16384],
    s: &[u16; 128],
    n: usize,
) -> [u16; 128]
    requires tables { Tables f powers.now logs.now }
    requires n_bound { (n ≤ 62) × (Elements f s.now) }
    ensures { Spread f (gf f) (num f) s.now n result }
{
    let mut v = [0; 128];
    for i in 0..n {
        let x = s[i];
        let square = product_by_tables(f, powers, logs, x, x);
        v[i + i] = square;
    }
    v
}

// Takes the coefficient at i away with a multiple of the locator.
fn clear(
    f: Field,
    powers: &[u16; 16384],
    logs: &[u16; 16384],
    c: &[u16; 128],
    len: usize,
    t: &mut [u16; 128],
    i: usize,
)
    requires tables { Tables f powers.now logs.now }
    requires len_bound { (i + len < 128) × (Divisor f c.now len) × (Elements f t.old) }
    ensures { Cleared f (gf f) (num f) c.now len t.old i t.new }
{
    let q = t[i];
    if q == 0 {
        return;
    }
    let first = c[0];
    let e = quotient(f, powers, logs, q, first);
    mix(f, powers, logs, t, c, e, i, len + 1);
}

// The remainder modulo the locator of degree n + 1; its coefficients stand from n on.
fn reduced(
    f: Field,
    powers: &[u16; 16384],
    logs: &[u16; 16384],
    c: &[u16; 128],
    t: [u16; 128],
    n: usize,
) -> [u16; 128]
    requires tables { Tables f powers.now logs.now }
    requires n_bound { (n < 62) × (Divisor f c.now (suc n)) × (Elements f t) }
    ensures { Reduced f (gf f) (num f) c.now (suc n) t n result }
{
    let mut v = t;
    for i in 0..n {
        clear(f, powers, logs, c, n + 1, &mut v, i);
    }
    v
}

// The first n coefficients from `from` on.
fn lowered(t: &[u16; 128], from: usize, n: usize) -> [u16; 128]
    requires { from + n ≤ 128 }
    ensures { Lowered t.now from n result }
{
    let mut v = [0; 128];
    for i in 0..n {
        v[i] = t[from + i];
    }
    v
}

// The square modulo the locator of degree n + 1.
fn squared(
    f: Field,
    powers: &[u16; 16384],
    logs: &[u16; 16384],
    c: &[u16; 128],
    s: [u16; 128],
    n: usize,
) -> [u16; 128]
    requires tables { Tables f powers.now logs.now }
    requires n_bound { (n < 62) × (Divisor f c.now (suc n)) × (Elements f s) }
    ensures { Squared f (gf f) (num f) c.now (suc n) s result }
{
    let square = spread(f, powers, logs, &s, n + 1);
    let rest = reduced(f, powers, logs, c, square, n);
    lowered(&rest, n, n + 1)
}

// Whether two arrays have the same first n entries.
fn same(s: &[u16; 128], x: &[u16; 128], n: usize) -> bool
    requires { n ≤ 128 }
    ensures { Decides result ((j : ℕ) → j < n → get_or s.now j 0 ≡ get_or x.now j 0) }
{
    for i in 0..n {
        let p = s[i];
        let q = x[i];
        if p != q {
            return false;
        }
    }
    true
}

// False only where a polynomial of degree d + 2 has fewer roots among the powers of a than its degree.
fn may_split(f: Field, powers: &[u16; 16384], logs: &[u16; 16384], c: &[u16; 128], d: usize) -> bool
    requires tables { Tables f powers.now logs.now }
    requires d_bound { (d ≤ 60) × (Divisor f c.now (suc (suc d))) }
    ensures { result ≡ false → Splits (gf f) (num f) (a f) c.now (suc (suc d)) → ⊥ }
{
    let m = f.degree() as usize;
    let mut x = [0; 128];
    x[d] = 1;
    let mut s = x;
    for k in 0..m {
        s = squared(f, powers, logs, c, s, d + 1);
    }
    same(&s, &x, d + 2)
}

// True only where c_0 x^len + .. + c_len has fewer roots among the powers of a than its degree.
pub fn cannot_split(
    f: Field,
    powers: &[u16; 16384],
    logs: &[u16; 16384],
    c: &[u16; 128],
    len: usize,
) -> bool
    requires tables { Tables f powers.now logs.now }
    requires len_bound { (len ≤ 62) × (Divisor f c.now len) }
    ensures { result ≡ true → Splits (gf f) (num f) (a f) c.now len → ⊥ }
{
    if len < 2 {
        return false;
    }
    if may_split(f, powers, logs, c, len - 2) {
        return false;
    }
    true
}
