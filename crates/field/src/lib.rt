// The two fields of document 01, "The code": GF(2^13) on x^13 + x^4 + x^3 + x + 1 and GF(2^14) on x^14 + x^5 + x^3 + x + 1.
//
// An element is a number below 2^m whose bit i is the coefficient of x^i. The sum of two elements is their exclusive or;
// the element a is the class of x, the number 2, and its powers are all elements but 0.
//
//   Gf13, Gf14              the two field types: degree, reduction polynomial and longest word as their own constants
//   Field                   the field choice, handed to every call that works in either field
//   Field::choose           the field that a choice by number names
//   product, power          in either field, by shift and add and by squares
//
// Crate `field_tables` makes products by a table of powers and a table of logarithms; specs/Tables says what these are.
#![tactic(auto)]

ghost use Rattle.std.specs.Prelude.{◌≡◌, ◌^◌, ◌<◌};
ghost use Rattle.field.specs.Field.{degree, modulus, longest, chosen, mul, product, power, Elem, Usable};

// By hand: (d) the two field types share no code, and no generic function reads their constants: a trait would add its name alone.
// The field of 2^13 elements.
#[derive(Clone, Copy)]
pub struct Gf13;

impl Gf13 {
    pub const M: u32 = 13;

    pub const MODULUS: u32 = 0x201b;

    pub const LONGEST: u32 = 8191;
}

// The field of 2^14 elements.
#[derive(Clone, Copy)]
pub struct Gf14;

impl Gf14 {
    pub const M: u32 = 14;

    pub const MODULUS: u32 = 0x402b;

    pub const LONGEST: u32 = 16383;
}

// The field choice.
#[derive(Clone, Copy)]
pub enum Field {
    Thirteen,
    Fourteen,
}

impl Field {
    // The field that a choice by number names: 0 or 1, no other is offered.
    pub fn choose(number: u64) -> Option<Field>
        ensures { result ≡ chosen number }
    {
        match number {
            0 => Some(Field::Thirteen),
            1 => Some(Field::Fourteen),
            _ => None,
        }
    }

    // m: an element has m bits.
    pub fn degree(self) -> u32
        ensures { result ≡ degree self }
    {
        match self {
            Field::Thirteen => Gf13::M,
            Field::Fourteen => Gf14::M,
        }
    }

    // The reduction polynomial, bit i its coefficient of x^i.
    pub fn modulus(self) -> u32
        ensures { result ≡ modulus self }
    {
        match self {
            Field::Thirteen => Gf13::MODULUS,
            Field::Fourteen => Gf14::MODULUS,
        }
    }

    // 2^m - 1: the length of the longest word, and the number of powers of a.
    pub fn longest(self) -> u32
        ensures { result ≡ longest self }
    {
        match self {
            Field::Thirteen => Gf13::LONGEST,
            Field::Fourteen => Gf14::LONGEST,
        }
    }
}

// The product of two elements.
pub fn product(f: Field, x: u16, y: u16) -> u16
    requires { x < 2 ^ degree f }
    ensures { Elem (degree f) (product f x y) result }
{
    let m = f.degree();
    let modulus = f.modulus();
    let r = shift_and_add(m, modulus, x as u32, y as u32);
    r as u16
}

// The terms of y from the highest down: each step is one shift, reduced, and one sum.
fn shift_and_add(m: u32, modulus: u32, x: u32, y: u32) -> u32
    requires usable { Usable m modulus }
    requires x_bound { x < 2 ^ m }
    ensures { Elem m (mul m modulus x y) result }
{
    let mut r: u32 = 0;
    for k in 0..m {
        let i = m - 1 - k;
        let d = r * 2;
        let reduced = d ^ ((d >> m) & 1) * modulus;
        r = reduced ^ ((y >> i) & 1) * x;
    }
    r
}

// The power n of an element, by the power of half the exponent.
pub fn power(f: Field, x: u16, n: u64) -> u16
    requires { x < 2 ^ degree f }
    ensures { Elem (degree f) (power f x n) result }
{
    if n == 0 {
        return 1;
    }
    let half = power(f, x, n / 2);
    let square = product(f, half, half);
    if n % 2 == 1 {
        product(f, x, square)
    } else {
        square
    }
}
