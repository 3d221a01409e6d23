// Counting the zeros of a run of bits (document 02, E1), 64 bits at a time and no further than asked.
//
//   zeros_to    the zeros of n bits from a position on, counted no further than a limit
#![tactic(auto)]

ghost use Rattle.std.specs.Prelude.{◌≡◌, ◌≤◌, ◌<◌};
ghost use Rattle.bits.specs.Bits.{bit_of, run, Inside};
ghost use Rattle.code.specs.Word.{zeros, zeros_to};
ghost use Rattle.zeros.specs.Counting.{chunk};

use bits::read::word_at;

// The zeros of the first n of the 64 bits from position p on.
fn word_zeros(page: &[u8], p: usize, n: usize) -> usize
    requires { (0 < n) × (n ≤ 64) }
    ensures { result ≡ zeros (run (bit_of page.now) p n) }
{
    let word = word_at(page, p);
    let above = word >> (64 - n);
    let ones = u64::count_ones(above);
    n - ones as usize
}

// How many of n bits are counted at once.
fn chunk_of(n: usize) -> usize
    ensures { result ≡ chunk n }
{
    if n < 64 { n } else { 64 }
}

// The zeros of n bits from position `at` on, counted no further than a limit.
pub fn zeros_to(page: &[u8], at: usize, n: usize, limit: usize) -> usize
    requires { Inside page.now at n }
    ensures { result ≡ zeros_to limit (run (bit_of page.now) at n) }
{
    let mut found = 0;
    let mut i = 0;
    while i < n {
        if limit <= found {
            return limit;
        }
        let k = chunk_of(n - i);
        let p = at + i;
        let more = word_zeros(page, p, k);
        found += more;
        i += k;
    }
    if found < limit { found } else { limit }
}
