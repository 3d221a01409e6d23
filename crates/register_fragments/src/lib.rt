// A remainder in a register and the seven fragments of 32 bits that a hardware locator takes (document 004; document 02, E9).
//
//   to_fragments      the fragments of the number in a register
//   from_fragments    the number in fragments
//
// specs/Fragments.antt says what they are; the laws stand in proofs/Numbers.antt.
#![tactic(auto)]

ghost use Rattle.std.specs.Prelude.{◌≡◌, ◌*◌, ◌%◌, ◌<◌, length};
ghost use Rattle.code.specs.Register.{register};
ghost use Rattle.register_fragments.specs.Fragments.{fragments_of, joined};

use register_shifts::shifted;
use remainder::Register;
use remainder::coefficients::zero;

// The number in seven fragments. Four words of 64 bits have room for it.
pub fn from_fragments(l: &[u32]) -> Register
    requires { length l.now ≡ 7 }
    ensures { register result.words ≡ joined l.now }
{
    let mut r = zero();
    for fragment in l.iter().rev() {
        r = shifted(r, 4, 32, *fragment as u64);
    }
    r
}

// The lowest coefficient that fragment i holds.
fn lowest_of(i: usize) -> usize
    requires { i < 7 }
    ensures { result ≡ 32 * i }
{
    32 * i
}

// Fragment 6 is the lower half of a word. Its bit 16 starts the locator, and is above every coefficient.
fn last_fragment(word: u64) -> u32
    ensures { result ≡ word % 4294967296 }
{
    (word % 4294967296) as u32
}

// The fragments of the number in a register.
pub fn to_fragments(state: Register, l: &mut [u32])
    requires { length l.old ≡ 7 }
    ensures { l.new ≡ fragments_of (register state.words) }
{
    let words = state.words;
    for i in 0..6 {
        let at = lowest_of(i);
        let word = words[at / 64];
        l[i] = ((word >> (at % 64)) % 4294967296) as u32;
    }
    l[6] = last_fragment(words[3]);
}
