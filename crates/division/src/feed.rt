// Runs of bits of a byte slice, by the table of a divisor of the degree 64 used: the odd bits first, which fill no word, then words of 64. The
// parity so far is a partial remainder of used + 1 words in between, and is reduced once, at the end.
ghost use Rattle.std.specs.Prelude.{◌≡◌, ℕ, ◌+◌, ◌*◌, ◌^◌, ◌≤◌, ◌<◌};
ghost use Rattle.bits.specs.Bits.{bit_of, run};
ghost use Rattle.code.specs.Register.{register};
ghost use Rattle.remainder.specs.Parity.{parity_from};
ghost use Rattle.partial.specs.Partial.{reduced};
ghost use Rattle.division_table.specs.Table.{RowWords, divisor_of, Rests};

use crate::words::{turned_word, words_from};
use bits::read::word_at;
use division_steps::{finish, start, step};
use remainder::Register;
use wide::Wide;

// A run of up to 16 words, where the divisor has the degree 64 USED. The number is known to the compiler: the loops over words are then unrolled.
fn feed_wide<const USED: usize>(
    state: Wide,
    table: &[u8],
    bytes: &[u8],
    at: usize,
    count: usize,
) -> Wide
    requires { (Rests USED table.now) × (register state.words < 2 ^ (64 * USED + 64)) × (at + 64 * count < 18446744073709551616) × (count ≤ 16) }
    ensures { (register result.words < 2 ^ (64 * USED + 64)) × (reduced (64 * USED) (divisor_of USED table.now) (register result.words)
        ≡ parity_from (64 * USED) (divisor_of USED table.now) (reduced (64 * USED) (divisor_of USED table.now) (register state.words)) (run (bit_of bytes.now) at (64 * count))) }
{
    let words = words_from(bytes, at, count);
    let mut r = state;
    for fed in 0..count {
        let w = turned_word(words[fed]);
        r = step::<USED>(r, table, w);
    }
    r
}

// Up to 16 words for a divisor of any degree. It is called in two places: the compiler then keeps it apart, and has the registers of the
// processor for its loops alone.
fn feed_few_words(
    state: Wide,
    table: &[u8],
    used: usize,
    bytes: &[u8],
    at: usize,
    count: usize,
) -> Wide
    requires { (Rests used table.now) × (register state.words < 2 ^ (64 * used + 64)) × (at + 64 * count < 18446744073709551616) × (count ≤ 16) }
    ensures { (register result.words < 2 ^ (64 * used + 64)) × (reduced (64 * used) (divisor_of used table.now) (register result.words)
        ≡ parity_from (64 * used) (divisor_of used table.now) (reduced (64 * used) (divisor_of used table.now) (register state.words)) (run (bit_of bytes.now) at (64 * count))) }
{
    if used == 4 {
        return feed_wide::<4>(state, table, bytes, at, count);
    }
    if used == 10 {
        return feed_wide::<10>(state, table, bytes, at, count);
    }
    feed_wide::<14>(state, table, bytes, at, count)
}

// A run of any number of words: first those that are left over when the others are fed 16 at a time.
fn feed_words(state: Wide, table: &[u8], used: usize, bytes: &[u8], at: usize, count: usize) -> Wide
    requires { (Rests used table.now) × (register state.words < 2 ^ (64 * used + 64)) × (at + 64 * count < 18446744073709551616) }
    ensures { (register result.words < 2 ^ (64 * used + 64)) × (reduced (64 * used) (divisor_of used table.now) (register result.words)
        ≡ parity_from (64 * used) (divisor_of used table.now) (reduced (64 * used) (divisor_of used table.now) (register state.words)) (run (bit_of bytes.now) at (64 * count))) }
{
    let mut fed = count % 16;
    let mut r = feed_few_words(state, table, used, bytes, at, fed);
    // By hand: a turn takes 16 words and not one, and a `step_by` would need the same measure.
    while fed < count {
        r = feed_few_words(r, table, used, bytes, at + 64 * fed, 16);
        fed += 16;
    }
    r
}

// The partial remainder of a parity and of the `odd` bits after it, of which there are fewer than 64.
pub fn start_run(state: Register, used: usize, bytes: &[u8], at: usize, odd: usize) -> Wide
    requires { (RowWords used) × (register state.words < 2 ^ (64 * used)) × (odd < 64) }
    ensures { (register result.words < 2 ^ (64 * used + 64)) × ((g : ℕ) → reduced (64 * used) g (register result.words)
        ≡ parity_from (64 * used) g (register state.words) (run (bit_of bytes.now) at odd)) }
{
    if odd == 0 {
        return start(state, used, 0, 0);
    }
    let w = word_at(bytes, at);
    start(state, used, odd, w >> (64 - odd))
}

// The parity at the end, with the number of words in use written out.
fn finish_run(state: Wide, table: &[u8], used: usize) -> Register
    requires { (Rests used table.now) × (register state.words < 2 ^ (64 * used + 64)) }
    ensures { register result.words ≡ reduced (64 * used) (divisor_of used table.now) (register state.words) }
{
    if used == 4 {
        return finish(state, table, 4);
    }
    if used == 10 {
        return finish(state, table, 10);
    }
    finish(state, table, 14)
}

// A run of n bits: its odd bits, then its words.
pub fn feed_run(
    state: Register,
    table: &[u8],
    used: usize,
    bytes: &[u8],
    at: usize,
    n: usize,
) -> Register
    requires { (Rests used table.now) × (register state.words < 2 ^ (64 * used)) × (at + n < 18446744073709551616) }
    ensures { register result.words
        ≡ parity_from (64 * used) (divisor_of used table.now) (register state.words) (run (bit_of bytes.now) at n) }
{
    let odd = n % 64;
    let first = start_run(state, used, bytes, at, odd);
    let all = feed_words(first, table, used, bytes, at + odd, n / 64);
    finish_run(all, table, used)
}
