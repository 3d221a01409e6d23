// Two runs of bits of one length side by side, by a table for a divisor of the degree 64 times four. A step of one run does not wait for those of
// the other, and the processor takes both at once: where the parity has so few words, a run alone leaves it waiting.
ghost use Rattle.std.specs.Prelude.{◌≡◌, ◌+◌, ◌*◌, ◌^◌, ◌≤◌, ◌<◌};
ghost use Rattle.bits.specs.Bits.{bit_of, run};
ghost use Rattle.code.specs.Register.{register};
ghost use Rattle.remainder.specs.Parity.{parity_from};
ghost use Rattle.partial.specs.Partial.{reduced};
ghost use Rattle.division_table.specs.Table.{divisor_of, Rests};

use crate::Pair;
use crate::feed::start_run;
use crate::words::{turned_word, words_from};
use division_steps::{Two, finish, two_steps};
use remainder::Register;
use wide::Wide;

// Up to 16 words of each run.
fn feed_two_few(
    a: Wide,
    b: Wide,
    table: &[u8],
    bytes: &[u8],
    at: usize,
    to: usize,
    count: usize,
) -> Two
    requires rests { (Rests 4 table.now) × (register a.words < 2 ^ (64 * 4 + 64)) × (register b.words < 2 ^ (64 * 4 + 64)) }
    requires count_bound { (at + 64 * count < 18446744073709551616) × (to + 64 * count < 18446744073709551616) × (count ≤ 16) }
    ensures words_bound { (register result.first.words < 2 ^ (64 * 4 + 64)) × (reduced (64 * 4) (divisor_of 4 table.now) (register result.first.words)
        ≡ parity_from (64 * 4) (divisor_of 4 table.now) (reduced (64 * 4) (divisor_of 4 table.now) (register a.words)) (run (bit_of bytes.now) at (64 * count))) }
    ensures words_bound_2 { (register result.second.words < 2 ^ (64 * 4 + 64)) × (reduced (64 * 4) (divisor_of 4 table.now) (register result.second.words)
        ≡ parity_from (64 * 4) (divisor_of 4 table.now) (reduced (64 * 4) (divisor_of 4 table.now) (register b.words)) (run (bit_of bytes.now) to (64 * count))) }
{
    let firsts = words_from(bytes, at, count);
    let seconds = words_from(bytes, to, count);
    let mut r = a;
    let mut s = b;
    for fed in 0..count {
        let v = turned_word(firsts[fed]);
        let w = turned_word(seconds[fed]);
        let two = two_steps(r, s, table, v, w);
        r = two.first;
        s = two.second;
    }
    Two {
        first: r,
        second: s,
    }
}

// Any number of words of each run.
fn feed_two_words(
    a: Wide,
    b: Wide,
    table: &[u8],
    bytes: &[u8],
    at: usize,
    to: usize,
    count: usize,
) -> Two
    requires rests { (Rests 4 table.now) × (register a.words < 2 ^ (64 * 4 + 64)) × (register b.words < 2 ^ (64 * 4 + 64)) }
    requires count_bound { (at + 64 * count < 18446744073709551616) × (to + 64 * count < 18446744073709551616) }
    ensures words_bound { (register result.first.words < 2 ^ (64 * 4 + 64)) × (reduced (64 * 4) (divisor_of 4 table.now) (register result.first.words)
        ≡ parity_from (64 * 4) (divisor_of 4 table.now) (reduced (64 * 4) (divisor_of 4 table.now) (register a.words)) (run (bit_of bytes.now) at (64 * count))) }
    ensures words_bound_2 { (register result.second.words < 2 ^ (64 * 4 + 64)) × (reduced (64 * 4) (divisor_of 4 table.now) (register result.second.words)
        ≡ parity_from (64 * 4) (divisor_of 4 table.now) (reduced (64 * 4) (divisor_of 4 table.now) (register b.words)) (run (bit_of bytes.now) to (64 * count))) }
{
    let mut fed = count % 16;
    let mut two = feed_two_few(a, b, table, bytes, at, to, fed);
    // By hand: a turn takes 16 words and not one, and a `step_by` would need the same measure.
    while fed < count {
        two = feed_two_few(
            two.first,
            two.second,
            table,
            bytes,
            at + 64 * fed,
            to + 64 * fed,
            16,
        );
        fed += 16;
    }
    two
}

// Two runs of n bits: their odd bits, then their words.
pub fn feed_two_runs(
    begin: Register,
    table: &[u8],
    bytes: &[u8],
    at: usize,
    to: usize,
    n: usize,
) -> Pair
    requires rests { (Rests 4 table.now) × (register begin.words < 2 ^ (64 * 4)) }
    requires n_bound { (at + n < 18446744073709551616) × (to + n < 18446744073709551616) }
    ensures words_value { register result.first.words
        ≡ parity_from (64 * 4) (divisor_of 4 table.now) (register begin.words) (run (bit_of bytes.now) at n) }
    ensures words_value_2 { register result.second.words
        ≡ parity_from (64 * 4) (divisor_of 4 table.now) (register begin.words) (run (bit_of bytes.now) to n) }
{
    let odd = n % 64;
    let a = start_run(begin, 4, bytes, at, odd);
    let b = start_run(begin, 4, bytes, to, odd);
    let all = feed_two_words(a, b, table, bytes, at + odd, to + odd, n / 64);
    let r = finish(all.first, table, 4);
    let s = finish(all.second, table, 4);
    Pair {
        first: r,
        second: s,
    }
}
