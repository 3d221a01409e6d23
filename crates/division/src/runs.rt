// Remainders of runs of bits by the generator of a level, from the table of that level.
ghost use Rattle.std.specs.Prelude.{◌≡◌, false, ◌++◌, ◌+◌, ◌*◌, ◌^◌, ◌<◌, replicate};
ghost use Rattle.bits.specs.Bits.{bit_of, run};
ghost use Rattle.field.specs.Field.{degree};
ghost use Rattle.code.specs.Generator.{generator, remainder};
ghost use Rattle.code.specs.Register.{register};
ghost use Rattle.remainder.specs.Parity.{parity_from};
ghost use Rattle.division_table.specs.Table.{Table};

use crate::Pair;
use crate::feed::feed_run;
use crate::pairs::feed_two_runs;
use division_table::row_words;
use field::Field;
use register_digits::number_at;
use register_shifts::{lowered, raised};
use remainder::Register;
use remainder::add::added;
use remainder::coefficients::{parity_bits, zero};

// The parity of n more bits of a message, from the parity of those before on.
pub fn parity_more(
    f: Field,
    t: usize,
    table: &[u8],
    state: Register,
    bytes: &[u8],
    at: usize,
    n: usize,
) -> Register
    requires { (Table f t table.now) × (0 < t) × (register state.words < 2 ^ (degree f * t)) × (at + n < 18446744073709551616) }
    ensures { register result.words
        ≡ parity_from (degree f * t) (generator f t) (register state.words) (run (bit_of bytes.now) at n) }
{
    let d = parity_bits(f, t);
    let used = row_words(d);
    let gap = 64 * used - d;
    let before = raised(state, gap);
    let after = feed_run(before, table, used, bytes, at, n);
    lowered(after, gap)
}

// The remainder of the n bits of a byte slice from position `at` on times x^(mt), whose digits are the parity of a message.
pub fn parity_of(f: Field, t: usize, table: &[u8], bytes: &[u8], at: usize, n: usize) -> Register
    requires { (Table f t table.now) × (at + n < 18446744073709551616) }
    ensures { register result.words ≡ remainder f t (run (bit_of bytes.now) at n ++ replicate (degree f * t) false) }
{
    let start = zero();
    if t == 0 {
        return start;
    }
    parity_more(f, t, table, start, bytes, at, n)
}

// The remainder of the same bits. The last mt of them are added to the parity of those before.
pub fn remainder_of(f: Field, t: usize, table: &[u8], bytes: &[u8], at: usize, n: usize) -> Register
    requires { (Table f t table.now) × (at + n < 18446744073709551616) }
    ensures { register result.words ≡ remainder f t (run (bit_of bytes.now) at n) }
{
    let d = parity_bits(f, t);
    if n < d {
        return number_at(bytes, at, n);
    }
    let message = n - d;
    let parity = parity_of(f, t, table, bytes, at, message);
    let last = number_at(bytes, at + message, d);
    added(last, parity)
}

// The parities of two messages of n bits, from positions `at` and `to` on, each by itself.
fn parities_alone(
    f: Field,
    t: usize,
    table: &[u8],
    bytes: &[u8],
    at: usize,
    to: usize,
    n: usize,
) -> Pair
    requires { (Table f t table.now) × (at + n < 18446744073709551616) × (to + n < 18446744073709551616) }
    ensures words_value { register result.first.words ≡ remainder f t (run (bit_of bytes.now) at n ++ replicate (degree f * t) false) }
    ensures words_value_2 { register result.second.words ≡ remainder f t (run (bit_of bytes.now) to n ++ replicate (degree f * t) false) }
{
    let first = parity_of(f, t, table, bytes, at, n);
    let second = parity_of(f, t, table, bytes, to, n);
    Pair {
        first: first,
        second: second,
    }
}

// The same side by side where the rows of the table have four words.
fn two_parities(
    f: Field,
    t: usize,
    table: &[u8],
    bytes: &[u8],
    at: usize,
    to: usize,
    n: usize,
) -> Pair
    requires { (Table f t table.now) × (0 < t) × (at + n < 18446744073709551616) × (to + n < 18446744073709551616) }
    ensures words_value { register result.first.words ≡ remainder f t (run (bit_of bytes.now) at n ++ replicate (degree f * t) false) }
    ensures words_value_2 { register result.second.words ≡ remainder f t (run (bit_of bytes.now) to n ++ replicate (degree f * t) false) }
{
    let d = parity_bits(f, t);
    let used = row_words(d);
    if used != 4 {
        return parities_alone(f, t, table, bytes, at, to, n);
    }
    let gap = 64 * used - d;
    let start = raised(zero(), gap);
    let pair = feed_two_runs(start, table, bytes, at, to, n);
    let first = lowered(pair.first, gap);
    let second = lowered(pair.second, gap);
    Pair {
        first: first,
        second: second,
    }
}

// The remainders of two runs of n bits, from positions `at` and `to` on.
pub fn two_remainders(
    f: Field,
    t: usize,
    table: &[u8],
    bytes: &[u8],
    at: usize,
    to: usize,
    n: usize,
) -> Pair
    requires { (Table f t table.now) × (0 < t) × (at + n < 18446744073709551616) × (to + n < 18446744073709551616) }
    ensures words_value { register result.first.words ≡ remainder f t (run (bit_of bytes.now) at n) }
    ensures words_value_2 { register result.second.words ≡ remainder f t (run (bit_of bytes.now) to n) }
{
    let d = parity_bits(f, t);
    if n < d {
        let first = number_at(bytes, at, n);
        let second = number_at(bytes, to, n);
        return Pair {
            first: first,
            second: second,
        };
    }
    let message = n - d;
    let parities = two_parities(f, t, table, bytes, at, to, message);
    let first = number_at(bytes, at + message, d);
    let second = number_at(bytes, to + message, d);
    Pair {
        first: added(first, parities.first),
        second: added(second, parities.second),
    }
}
