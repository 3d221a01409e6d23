// Coefficients of a message taken in 64 at a time or fewer, by the table of a divisor (document 01, "The code"; document 02, E3).
//
//   start        the first coefficients of a run, fewer than 64 or none, after a parity
//   step         the 64 coefficients of a word, where the divisor has the degree 64 times four, ten or fourteen, written so that the compiler
//                unrolls it, the highest words first
//   two_steps    two words of two runs, where it is 64 times four
//   finish       the parity at the end
//
// Between `start` and `finish` the parity is a partial remainder, one word longer than the divisor allows. A step takes that word away, moves
// the others up, and adds the rows of its eight bytes to them and to the next word of the message. What a table is stands in
// `division_table`, the sums of words of rows in specs/Sums.antt; proofs/ has the laws, for the crates of the runs and of the division bit by bit
// too: Rows (what the rows stand for, and sums of them), Steps (numbers in words, and runs of steps), Level (what is moved up to whole words).
#![tactic(auto)]

ghost use Rattle.std.specs.Prelude.{◌≡◌, ℕ, ◌+◌, ◌-◌, ◌*◌, ◌/◌, ◌%◌, ◌^◌, ◌≤◌, ◌<◌, length, get_or};
ghost use Rattle.std.specs.Int.Bits.{bit_xor};
ghost use Rattle.bits.specs.Bits.{digits};
ghost use Rattle.code.specs.Register.{register};
ghost use Rattle.remainder.specs.Parity.{parity_from};
ghost use Rattle.table_rows.specs.Rows.{row_bytes};
ghost use Rattle.partial.specs.Partial.{reduced};
ghost use Rattle.partial.specs.Clearing.{row_words};
ghost use Rattle.division_table.specs.Table.{RowWords, divisor_of, Rests};
ghost use Rattle.division_steps.specs.Sums.{word_sum, Added};

use partial::{reduce, row_size};
use remainder::Register;
use table_rows::row_bytes;
use wide::{Wide, eight_low};

// The partial remainders of two runs that are divided side by side.
#[derive(Clone, Copy)]
pub struct Two {
    pub first: Wide,
    pub second: Wide,
}

// Where the rows of the eight bytes of a word are read, the lowest first: row v is read from b bytes earlier on for byte b.
fn places(v: u64, used: usize) -> [usize; 8]
    requires { used ≤ 14 }
    ensures { (b : ℕ) → b < 8 → get_or result b 0 ≡ row_bytes (row_words used) * (v / 2 ^ (8 * b) % 256) + 8 - b }
{
    let size = row_bytes(row_size(used));
    let mut at = [0usize; 8];
    let mut left = v;
    for b in 0..8 {
        let row = (left % 256) as usize;
        at[b] = size * row + 8 - b;
        left = left >> 8;
    }
    at
}

// Word i of eight rows, added to a word.
fn word_added(start: u64, table: &[u8], at: [usize; 8], i: usize) -> u64
    requires { (i ≤ 14) × (36864 ≤ length table.now) × ((b : ℕ) → b < 8 → get_or at b 0 ≤ 32648) }
    ensures { result ≡ word_sum table.now at i 8 start }
{
    let mut sum = start;
    for b in 0..8 {
        sum = eight_low(table, at[b] + 8 * i) ^ sum;
    }
    sum
}

// Words `from` to `to` - 1 of eight rows, added to those of a number, the highest first: the next step waits for the highest.
fn words_added(state: Wide, table: &[u8], at: [usize; 8], from: usize, to: usize) -> Wide
    requires { (from ≤ to) × (to ≤ 15) × (36864 ≤ length table.now) × ((b : ℕ) → b < 8 → get_or at b 0 ≤ 32648) }
    ensures { Added table.now at from to state.words result.words }
{
    let mut words = state.words;
    for i in (from..to).rev() {
        words[i] = word_added(words[i], table, at, i);
    }
    Wide { words: words }
}

// A partial remainder of used + 1 words without its highest, moved up by one word, with w added to what is the highest then.
fn word_up(state: Wide, used: usize, w: u64) -> Wide
    requires { (0 < used) × (used ≤ 14) × (register state.words < 2 ^ (64 * used + 64)) }
    ensures { register result.words ≡ bit_xor (register state.words % 2 ^ (64 * used) * 2 ^ 64) (w * 2 ^ (64 * used)) }
{
    let from = state.words;
    let mut words = state.words;
    words[0] = 0;
    for i in 0..used {
        words[i + 1] = from[i];
    }
    words[used] = from[used - 1] ^ w;
    Wide { words: words }
}

// The 64 coefficients of a word, the highest digit first, where the divisor has the degree 64 USED. The numbers are known to the compiler, which
// unrolls the loops over words.
pub fn step<const USED: usize>(state: Wide, table: &[u8], w: u64) -> Wide
    requires { (Rests USED table.now) × (register state.words < 2 ^ (64 * USED + 64)) }
    ensures { (register result.words < 2 ^ (64 * USED + 64)) × (reduced (64 * USED) (divisor_of USED table.now) (register result.words)
        ≡ parity_from (64 * USED) (divisor_of USED table.now) (reduced (64 * USED) (divisor_of USED table.now) (register state.words)) (digits w 64)) }
{
    let words = state.words;
    let at = places(words[USED], USED);
    let next = word_up(state, USED, w);
    if USED == 4 {
        return words_added(next, table, at, 0, 5);
    }
    if USED == 10 {
        let high = words_added(next, table, at, 6, 11);
        return words_added(high, table, at, 0, 6);
    }
    let high = words_added(next, table, at, 10, 15);
    let most = words_added(high, table, at, 5, 10);
    words_added(most, table, at, 0, 5)
}

// The same for two words of two runs, where the divisor has the degree 64 times four.
pub fn two_steps(a: Wide, b: Wide, table: &[u8], v: u64, w: u64) -> Two
    requires { (Rests 4 table.now) × (register a.words < 2 ^ (64 * 4 + 64)) × (register b.words < 2 ^ (64 * 4 + 64)) }
    ensures words_bound { (register result.first.words < 2 ^ (64 * 4 + 64)) × (reduced (64 * 4) (divisor_of 4 table.now) (register result.first.words)
        ≡ parity_from (64 * 4) (divisor_of 4 table.now) (reduced (64 * 4) (divisor_of 4 table.now) (register a.words)) (digits v 64)) }
    ensures words_bound_2 { (register result.second.words < 2 ^ (64 * 4 + 64)) × (reduced (64 * 4) (divisor_of 4 table.now) (register result.second.words)
        ≡ parity_from (64 * 4) (divisor_of 4 table.now) (reduced (64 * 4) (divisor_of 4 table.now) (register b.words)) (digits w 64)) }
{
    let firsts = a.words;
    let seconds = b.words;
    let at = places(firsts[4], 4);
    let to = places(seconds[4], 4);
    let one = word_up(a, 4, v);
    let other = word_up(b, 4, w);
    Two {
        first: words_added(one, table, at, 0, 5),
        second: words_added(other, table, to, 0, 5),
    }
}

// The partial remainder of a parity and of fewer than 64 coefficients after it, the k digits of b.
pub fn start(state: Register, used: usize, k: usize, b: u64) -> Wide
    requires { (RowWords used) × (register state.words < 2 ^ (64 * used)) × (k < 64) × (b < 2 ^ k) }
    ensures { (register result.words < 2 ^ (64 * used + 64)) × ((g : ℕ) → reduced (64 * used) g (register result.words)
        ≡ parity_from (64 * used) g (register state.words) (digits b k)) }
{
    let from = state.words;
    let mut words = [0u64; 15];
    let mut carry = 0u64;
    for i in 0..used {
        let w = from[i];
        words[i] = (w << k) + carry;
        carry = (w >> 1) >> (63 - k);
    }
    words[used] = carry ^ b;
    Wide { words: words }
}

// The parity that a partial remainder stands for.
pub fn finish(state: Wide, table: &[u8], used: usize) -> Register
    requires { (Rests used table.now) × (register state.words < 2 ^ (64 * used + 64)) }
    ensures { register result.words ≡ reduced (64 * used) (divisor_of used table.now) (register state.words) }
{
    let whole = reduce(state, table, used);
    let from = whole.words;
    let mut words = [0u64; 14];
    for i in 0..used {
        words[i] = from[i];
    }
    Register { words: words }
}
