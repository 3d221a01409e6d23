// The digits of a register, highest first: put into a page, read from bits, and as bytes of their own (document 01, "Remainder").
//
//   place_parity    the lowest digits put into a page
//   number_at       bits of a byte slice as a number
//   from_bytes      a remainder from its bytes
//   to_bytes        and to them
//
// What those bytes are stands in `remainder`, specs/Remainder.antt; proofs/Bytes.antt has the laws.
#![tactic(auto)]

ghost use Rattle.std.specs.Prelude.{◌≡◌, ◌+◌, ◌-◌, ◌*◌, ◌≤◌, ◌<◌, length};
ghost use Rattle.bits.specs.Bits.{bit_of, run, number, digits, placed, Inside};
ghost use Rattle.code.specs.Register.{register};
ghost use Rattle.remainder.specs.Remainder.{number_of, bytes_of};

use bit_writing::copy::copy_bits;
use bits::read::word_at;
use remainder::Register;

// The lowest n digits of the number in a register, as the last bits of 112 bytes.
fn last_bits(state: Register, n: usize) -> [u8; 112]
    requires { n ≤ 896 }
    ensures { run (bit_of result) (896 - n) n ≡ digits (register state.words) n }
{
    let words = state.words;
    let mut bytes = [0u8; 112];
    for i in (896 - n) / 8..112 {
        bytes[i] = ((words[13 - i / 8] >> (56 - 8 * (i % 8))) % 256) as u8;
    }
    bytes
}

// Puts the coefficients below x^degree at a position of a page, the highest first.
pub fn place_parity(state: Register, degree: usize, page: &mut [u8], position: usize)
    requires { (degree ≤ 896) × Inside page.old position degree }
    ensures { page.new ≡ placed page.old position (digits (register state.words) degree) }
{
    let bytes = last_bits(state, degree);
    copy_bits(&bytes, 896 - degree, page, position, degree);
}

// The number in 64 count bits of a byte slice from position `at` on, the highest digit first.
fn whole_words(bytes: &[u8], at: usize, count: usize) -> Register
    requires { (count ≤ 14) × (at + 64 * count < 18446744073709551616) }
    ensures { register result.words ≡ number (run (bit_of bytes.now) at (64 * count)) }
{
    let mut words = [0u64; 14];
    for i in 0..count {
        words[i] = word_at(bytes, at + 64 * (count - 1 - i));
    }
    Register { words: words }
}

// The same for any number of bits that has room in a register.
pub fn number_at(bytes: &[u8], at: usize, n: usize) -> Register
    requires { (n ≤ 896) × (at + n < 18446744073709551616) }
    ensures { register result.words ≡ number (run (bit_of bytes.now) at n) }
{
    let count = n / 64;
    let odd = n % 64;
    let whole = whole_words(bytes, at + odd, count);
    if odd == 0 {
        return whole;
    }
    let mut words = whole.words;
    words[count] = word_at(bytes, at) >> (64 - odd);
    Register { words: words }
}

// The number in at most 112 bytes, highest coefficient first, right-aligned.
pub fn from_bytes(l: &[u8]) -> Register
    requires { length l.now ≤ 112 }
    ensures { register result.words ≡ number_of l.now }
{
    number_at(l, 0, 8 * l.len())
}

// The same the other way: the lowest coefficients, eight for each byte.
pub fn to_bytes(state: Register, l: &mut [u8])
    requires { length l.old ≤ 112 }
    ensures { l.new ≡ bytes_of (length l.old) (register state.words) }
{
    let n = 8 * l.len();
    place_parity(state, n, l, 0);
}
