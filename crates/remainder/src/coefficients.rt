// A register, and what can be asked of it.
ghost use Rattle.std.specs.Prelude.{◌≡◌, ◌*◌, ◌^◌, ◌≤◌, ◌<◌, eqb, ltb};
ghost use Rattle.bits.specs.Bits.{bit};
ghost use Rattle.field.specs.Field.{degree};
ghost use Rattle.code.specs.Register.{register};
ghost use Rattle.remainder.specs.Remainder.{bytes_for};

use crate::Register;
use field::Field;

// How many coefficients a remainder has at the level t: mt, the degree of its generator.
pub fn parity_bits(f: Field, t: usize) -> usize
    requires { t ≤ 62 }
    ensures { result ≡ degree f * t }
{
    let m = f.degree() as usize;
    m * t
}

// How many bytes hold so many coefficients.
pub fn bytes_for(bits: usize) -> usize
    requires { bits ≤ 896 }
    ensures { result ≡ bytes_for bits }
{
    (bits + 7) / 8
}

// A register of zeros.
pub fn zero() -> Register
    ensures { register result.words ≡ 0 }
{
    Register { words: [0u64; 14] }
}

// The coefficient of x^p.
pub fn coefficient(state: Register, p: usize) -> u64
    requires { p < 896 }
    ensures { result ≡ bit (register state.words) p }
{
    let words = state.words;
    (words[p / 64] >> (p % 64)) % 2
}

// Whether every coefficient is zero.
pub fn is_zero(state: Register) -> bool
    ensures { result ≡ eqb (register state.words) 0 }
{
    state.words.iter().all(|&w| w == 0)
}

// Whether no coefficient from x^degree on is one.
pub fn is_below(state: Register, degree: usize) -> bool
    requires { degree < 896 }
    ensures { result ≡ ltb (register state.words) (2 ^ degree) }
{
    let words = state.words;
    let k = degree / 64;
    words[k] >> (degree % 64) == 0 && words[k + 1..].iter().all(|&w| w == 0)
}
