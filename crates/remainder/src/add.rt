// Sums over GF(2).
ghost use Rattle.std.specs.Prelude.{◌≡◌, ◌+◌, ◌*◌, ◌^◌, ◌≤◌, ◌<◌, length, drop};
ghost use Rattle.std.specs.Int.Bits.{bit_xor};
ghost use Rattle.code.specs.Register.{low, register};

use crate::Register;

// The sum of the number in the first words of a register and of the number in as many words of a slice, from `from` on.
pub fn row_added(state: Register, words: &[u64], from: usize, used: usize) -> Register
    requires { (used ≤ 14) × (from + used ≤ length words.now) × (register state.words < 2 ^ (64 * used)) }
    ensures { register result.words ≡ bit_xor (low (drop from words.now) used) (register state.words) }
{
    let mut sum = state.words;
    for i in 0..used {
        sum[i] = words[from + i] ^ sum[i];
    }
    Register { words: sum }
}

// The sum of the numbers in two registers.
pub fn added(state: Register, other: Register) -> Register
    ensures { register result.words ≡ bit_xor (register other.words) (register state.words) }
{
    let words = other.words;
    row_added(state, &words, 0, 14)
}
