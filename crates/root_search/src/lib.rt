// The roots of an error locator among the powers of a, completely: a search through all of them. It answers for the locators for which
// the fast root finder has no proposal that holds, and that crate `split_test` does not tell apart.
//
//   locate    the places p below n for which a^p is a root, in ascending order
//
// A locator is an array of coefficients, the highest power first. Values go by Horner's rule and the lent tables.
#![tactic(auto)]

ghost use Rattle.std.specs.Prelude.{◌<◌, ◌≤◌, get_or};
ghost use Rattle.algebra.specs.Array.{coef};
ghost use Rattle.algebra.specs.Polynomial.{pow, value};
ghost use Rattle.algebra.specs.Search.{Found};
ghost use Rattle.field.specs.Field.{longest};
ghost use Rattle.field.specs.Tables.{Tables};
ghost use Rattle.field.proofs.Instance.{gf, num, a};
ghost use Rattle.series.specs.Series.{Represents, Elements};

use field::Field;
use field_tables::scaled;

// The polynomial c_0 x^len + .. + c_len at a^p.
fn value_at(
    f: Field,
    powers: &[u16; 16384],
    logs: &[u16; 16384],
    c: &[u16; 128],
    len: usize,
    p: usize,
) -> u16
    requires tables { Tables f powers.now logs.now }
    requires len_bound { (len < 128) × (p < longest f) × (Elements f c.now) }
    ensures { Represents f (gf f) (num f) (value (gf f) (coef (gf f) (num f) c.now) (pow (gf f) (a f) p) len) result }
{
    let mut v = c[0];
    for i in 0..len {
        let q = scaled(f, powers, logs, v, p);
        v = q ^ c[i + 1];
    }
    v
}

// The places of the errors, ascending: the first `count` entries of `exponents`.
// By hand: (a) no heap: fixed room, and how much of it is in use.
#[derive(Drop)]
pub struct Places {
    pub exponents: [u16; 64],
    pub count: usize,
}

// The places p below n for which a^p is a root of c_0 x^len + .. + c_len.
pub fn locate(
    f: Field,
    powers: &[u16; 16384],
    logs: &[u16; 16384],
    c: &[u16; 128],
    len: usize,
    n: usize,
) -> Places
    requires tables { Tables f powers.now logs.now }
    requires len_bound { (len ≤ 64) × (n ≤ longest f) × (Elements f c.now) × (0 < get_or c.now 0 0) }
    ensures { (result.count ≤ len) × (Found (gf f) (num f) c.now len (a f) result.exponents n result.count) }
{
    let mut exponents = [0; 64];
    let mut count: usize = 0;
    for p in 0..n {
        if count == len {
            return Places {
                exponents: exponents,
                count: count,
            };
        }
        let v = value_at(f, powers, logs, c, len, p);
        if v == 0 {
            exponents[count] = p as u16;
            count += 1;
        }
    }
    Places {
        exponents: exponents,
        count: count,
    }
}
