// Words of a run of bits, read before any of them is fed.
ghost use Rattle.std.specs.Prelude.{◌≡◌, ℕ, ◌+◌, ◌*◌, ◌≤◌, ◌<◌, length, get_or};
ghost use Rattle.bits.specs.Bits.{bit_of, run, number};
ghost use Rattle.division.specs.Turned.{turned_half, turned_word};

use bits::read::word_at;
use wide::eight_low;

// Half a word with its bytes in the other order.
fn turned(x: u32) -> u32
    ensures { result ≡ turned_half x }
{
    x % 256 * 16777216 + x / 256 % 256 * 65536 + x / 65536 % 256 * 256 + x / 16777216
}

// A word with its bytes in the other order.
pub fn turned_word(w: u64) -> u64
    ensures { result ≡ turned_word w }
{
    let lower = (w % 4294967296) as u32;
    let upper = (w / 4294967296) as u32;
    let first = turned(lower);
    let second = turned(upper);
    first as u64 * 4294967296 + second as u64
}

// The 16 words of a run of bits from byte `from` on, where the slice has them, each with its bytes in the other order: as the processor loads them.
fn sixteen_words(bytes: &[u8], from: usize) -> [u64; 16]
    requires { from + 128 ≤ length bytes.now }
    ensures { (k : ℕ) → k < 16 → turned_word (get_or result k 0) ≡ number (run (bit_of bytes.now) (8 * from + 64 * k) 64) }
{
    let mut words = [0u64; 16];
    for i in 0..16 {
        words[i] = eight_low(bytes, from + 8 * i);
    }
    words
}

// The same for up to 16 words from position `at` on, wherever that lies in a byte. They are read before any is fed, so that no call stands
// among the steps, and the compiler keeps the register of the parity in those of the processor.
pub fn words_from(bytes: &[u8], at: usize, count: usize) -> [u64; 16]
    requires { (count ≤ 16) × (at + 64 * count < 18446744073709551616) }
    ensures { (k : ℕ) → k < count → turned_word (get_or result k 0) ≡ number (run (bit_of bytes.now) (at + 64 * k) 64) }
{
    let from = at / 8;
    if at % 8 == 0 {
        if from + 128 <= bytes.len() {
            return sixteen_words(bytes, from);
        }
    }
    let mut words = [0u64; 16];
    for i in 0..count {
        let w = word_at(bytes, at + 64 * i);
        words[i] = turned_word(w);
    }
    words
}
