// Division of runs of the stream by the generator of a level.
ghost use Rattle.std.specs.Prelude.{◌≡◌, false, IfSome, List, ◌++◌, ℕ, ◌+◌, ◌*◌, ◌≤◌, ◌<◌, replicate};
ghost use Rattle.bits.specs.Bits.{bit_of, run, number};
ghost use Rattle.mark.specs.Mark.{stream_bit, InStream};
ghost use Rattle.field.specs.Field.{degree};
ghost use Rattle.code.specs.Generator.{remainder};
ghost use Rattle.code.specs.Register.{register};
ghost use Rattle.division_table.specs.Table.{Table};

use crate::read::copy_word;
use division::Pair;
use division::runs::{parity_more, parity_of, remainder_of, two_remainders};
use field::Field;
use mark::{Mark, near, place};
use register_digits::number_at;
use remainder::Register;
use remainder::add::added;
use remainder::coefficients::parity_bits;

// The remainder of n bits of the stream from position `at` on times x^(mt), whose digits are the parity of a message.
pub fn parity_in(
    f: Field,
    t: usize,
    table: &[u8],
    mark: Mark,
    page: &[u8],
    at: usize,
    n: usize,
) -> Register
    requires { (Table f t table.now) × (InStream mark page.now at n) }
    ensures { register result.words
        ≡ remainder f t (run (stream_bit mark page.now) at n ++ replicate (degree f * t) false) }
{
    let first = near(mark, at, n);
    if first == n {
        return parity_of(f, t, table, page, at, n);
    }
    let beyond = place(mark, at + first);
    if first == 0 {
        return parity_of(f, t, table, page, beyond, n);
    }
    let before = parity_of(f, t, table, page, at, first);
    if t == 0 {
        return before;
    }
    parity_more(f, t, table, before, page, beyond, n - first)
}

// The number in n bits of the stream from position `at` on, the highest digit first.
fn number_in(mark: Mark, page: &[u8], at: usize, n: usize) -> Register
    requires { (InStream mark page.now at n) × (n ≤ 896) }
    ensures { register result.words ≡ number (run (stream_bit mark page.now) at n) }
{
    let first = near(mark, at, n);
    if first == n {
        return number_at(page, at, n);
    }
    let mut word = [0u8; 112];
    copy_word(mark, page, at, &mut word, n);
    number_at(&word, 0, n)
}

// The remainder of n bits of the stream from position `at` on, wherever the mark stands.
fn remainder_across(
    f: Field,
    t: usize,
    table: &[u8],
    mark: Mark,
    page: &[u8],
    at: usize,
    n: usize,
) -> Register
    requires { (Table f t table.now) × (InStream mark page.now at n) }
    ensures { register result.words ≡ remainder f t (run (stream_bit mark page.now) at n) }
{
    let d = parity_bits(f, t);
    if n < d {
        return number_in(mark, page, at, n);
    }
    let message = n - d;
    let parity = parity_in(f, t, table, mark, page, at, message);
    let last = number_in(mark, page, at + message, d);
    added(last, parity)
}

// The same, in one division where the bits lie on one side of the mark.
pub fn remainder_in(
    f: Field,
    t: usize,
    table: &[u8],
    mark: Mark,
    page: &[u8],
    at: usize,
    n: usize,
) -> Register
    requires { (Table f t table.now) × (InStream mark page.now at n) }
    ensures { register result.words ≡ remainder f t (run (stream_bit mark page.now) at n) }
{
    let first = near(mark, at, n);
    if first == n {
        return remainder_of(f, t, table, page, at, n);
    }
    if first == 0 {
        let beyond = place(mark, at + first);
        return remainder_of(f, t, table, page, beyond, n);
    }
    remainder_across(f, t, table, mark, page, at, n)
}

// Where n bits of the stream from position `at` on lie in a page, if they lie on one side of the mark.
fn run_place(mark: Mark, at: usize, n: usize) -> Option<usize>
    requires { at + n + 8 * mark.length < 18446744073709551616 }
    ensures { IfSome result (λ position. (position + n < 18446744073709551616)
        × ((page : List ℕ) → run (bit_of page) position n ≡ run (stream_bit mark page) at n)) }
{
    let first = near(mark, at, n);
    if first == n {
        return Some(at);
    }
    let beyond = place(mark, at + first);
    if first == 0 {
        return Some(beyond);
    }
    None
}

// The remainders of two runs of n bits of the stream, from positions `at` and `to` on: side by side where the mark stands in neither.
pub fn two_remainders_in(
    f: Field,
    t: usize,
    table: &[u8],
    mark: Mark,
    page: &[u8],
    at: usize,
    to: usize,
    n: usize,
) -> Pair
    requires { (Table f t table.now) × (0 < t) × (InStream mark page.now at n) × (InStream mark page.now to n) }
    ensures words_value { register result.first.words ≡ remainder f t (run (stream_bit mark page.now) at n) }
    ensures words_value_2 { register result.second.words ≡ remainder f t (run (stream_bit mark page.now) to n) }
{
    if let Some(one) = run_place(mark, at, n) {
        if let Some(other) = run_place(mark, to, n) {
            return two_remainders(f, t, table, page, one, other, n);
        }
    }
    let first = remainder_in(f, t, table, mark, page, at, n);
    let second = remainder_in(f, t, table, mark, page, to, n);
    Pair {
        first: first,
        second: second,
    }
}
