// Products and quotients by tables. The caller lends a table of the powers of a and a table of logarithms (`powers::fill_tables`
// makes both), so that a product is three reads and a sum of exponents.
//
//   wrap                 an exponent of a brought below 2^m - 1
//   product_by_tables    the product of two elements
//   scaled               an element times a power of a
//   quotient             the exponent of a quotient
#![tactic(auto)]

ghost use Rattle.std.specs.Prelude.{◌≡◌, ◌*◌, ◌^◌, ◌<◌};
ghost use Rattle.field.specs.Field.{degree, modulus, longest, mul, product, a^, Elem};
ghost use Rattle.field.specs.Tables.{Tables};

use field::Field;

// The exponent s of a, less 2^m - 1 where it is not below that.
pub fn wrap(f: Field, s: usize) -> usize
    requires { s < 2 * longest f }
    ensures { (result < longest f) × (a^ f result ≡ a^ f s) }
{
    let n = f.longest() as usize;
    if s < n { s } else { s - n }
}

// The product of two elements by the tables.
pub fn product_by_tables(
    f: Field,
    powers: &[u16; 16384],
    logs: &[u16; 16384],
    x: u16,
    y: u16,
) -> u16
    requires tables { Tables f powers.now logs.now }
    requires x_bound { (x < 2 ^ degree f) × (y < 2 ^ degree f) }
    ensures { Elem (degree f) (product f x y) result }
{
    if x == 0 {
        return 0;
    }
    if y == 0 {
        return 0;
    }
    let at_x = x as usize;
    let at_y = y as usize;
    let i = logs[at_x] as usize;
    let j = logs[at_y] as usize;
    let k = wrap(f, i + j);
    powers[k]
}

// x a^e
pub fn scaled(f: Field, powers: &[u16; 16384], logs: &[u16; 16384], x: u16, e: usize) -> u16
    requires tables { Tables f powers.now logs.now }
    requires x_bound { (x < 2 ^ degree f) × (e < longest f) }
    ensures { Elem (degree f) (mul (degree f) (modulus f) x (a^ f e)) result }
{
    if x == 0 {
        return 0;
    }
    let i = x as usize;
    let l = logs[i] as usize;
    let k = wrap(f, l + e);
    powers[k]
}

// The exponent e of the quotient a^e = d / b.
pub fn quotient(f: Field, powers: &[u16; 16384], logs: &[u16; 16384], d: u16, b: u16) -> usize
    requires tables { Tables f powers.now logs.now }
    requires d_nonzero { (0 < d) × (d < 2 ^ degree f) × (0 < b) × (b < 2 ^ degree f) }
    ensures { (result < longest f) × (mul (degree f) (modulus f) b (a^ f result) ≡ d) }
{
    let n = f.longest() as usize;
    let i = d as usize;
    let j = b as usize;
    let x = logs[i] as usize;
    let y = logs[j] as usize;
    wrap(f, x + (n - y))
}
