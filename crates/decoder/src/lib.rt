// The errors behind a remainder: syndromes, key equation, roots, and a recheck over the code. The recheck makes every answer right,
// whatever proposed it. A fast root finder proposes first, of which nothing is known; where its proposal fails, a test tells locators
// with too few roots apart, and the complete search answers for the others. That nothing is missed is shown in proofs/Locating.antt.
//
//   fill_decoding  the tables by which remainders are decoded
//   find_errors    the set of at most t exponents below n that leaves a remainder
//
// 1. Crate `syndromes` works out the values of the remainder at a, a^2, .., a^(2t).
// 2. Crate `key_equation` finds the shortest recurrence of the syndromes, whose coefficients are those of the error locator.
// 3. A locator that is too long is refused. Crate `root_finder` proposes the roots of the others. Where the proposal fails, crate
//    `split_test` tells a locator that has not as many roots as its degree apart, and else crate `root_search` searches the powers of
//    a below a^n for them.
// 4. All roots are rechecked over the code: their power sums must be the syndromes. So neither locator nor proposal is trusted, and
//    no exponent at or above n is reported.
#![tactic(auto)]

ghost use Rattle.std.specs.Prelude.{◌≡◌, true, false, ◌≤◌, ◌<◌, length, take};
ghost use Rattle.field.specs.Field.{longest};
ghost use Rattle.powers.specs.Powers.{Powers};
ghost use Rattle.code.specs.Register.{register};
ghost use Rattle.series.specs.Series.{Elements};
ghost use Rattle.bits.specs.Decides.{Decides};
ghost use Rattle.syndrome_lanes.specs.Lanes.{Decoding};
ghost use Rattle.syndromes.specs.PowerSums.{Agrees};
ghost use Rattle.decoder.specs.Locating.{Locatable, Descending, Reversed, Finds};

use field::Field;
use key_equation::shortest;
use powers::fill_tables;
use remainder::Register;
use remainder::coefficients::is_zero;
use root_finder::find_roots;
use root_search::locate;
use split_test::cannot_split;
use syndrome_lanes::fill_rows;
use syndromes::power_sums::{sums_agree, syndromes};

// What is found for a remainder: whether a set of exponents leaves it, its size, and the set, the highest exponent first, in the first places.
// The other places are of no meaning, and all are where no set is located.
// By hand: (a) no Option: `DecidedAt` (page_decide) and `KeptFor` (page_keep) name the places of a finding with no set too; and no heap.
#[derive(Clone, Copy)]
pub struct Found {
    pub located: bool,
    pub count: usize,
    pub exponents: [u16; 64],
}

// A finding with no exponents: the empty set, or none at all.
fn no_exponents(located: bool) -> Found
    ensures { (result.located ≡ located) × (result.count ≡ 0) × (length result.exponents ≡ 64) }
{
    Found {
        located: located,
        count: 0,
        exponents: [0; 64],
    }
}

fn place(p: u16) -> usize
    ensures { result ≡ p }
{
    p as usize
}

// Whether a place is below a bound.
fn is_below(p: usize, bound: usize) -> bool
    ensures { (result ≡ true → p < bound) × (result ≡ false → bound ≤ p) }
{
    p < bound
}

// Whether the first `count` places of a list descend from below n.
fn descend_below(places: &[u16; 64], count: usize, n: usize) -> bool
    requires { count ≤ 64 }
    ensures { Decides result (Descending n count places.now) }
{
    let mut bound = n;
    for k in 0..count {
        let p = place(places[k]);
        if !is_below(p, bound) {
            return false;
        }
        bound = p;
    }
    true
}

// The first `count` places of a list, the last first.
fn reversed(places: &[u16; 64], count: usize) -> [u16; 64]
    requires { count ≤ 64 }
    ensures { Reversed count places.now result }
{
    let mut v = [0; 64];
    for i in 0..count {
        let at = count - 1 - i;
        v[i] = places[at];
    }
    v
}

// Whether the first `count` places of a list descend from below n, and have the given power sums with odd j.
fn passes(
    f: Field,
    powers: &[u16; 16384],
    sums: &[u16; 128],
    t: usize,
    n: usize,
    places: &[u16; 64],
    count: usize,
) -> bool
    requires powers { Powers f powers.now }
    requires t_bound { (t ≤ 62) × (Elements f sums.now) × (n ≤ longest f) × (count ≤ 64) × (length places.now ≡ 64) }
    ensures { Decides result ((Descending n count places.now) × (Agrees f t sums.now (take count places.now))) }
{
    if descend_below(places, count, n) {
        return sums_agree(f, powers, sums, t, places, count);
    }
    false
}

// Fills lent tables of powers, logarithms and rows, for levels up to t.
pub fn fill_decoding(
    f: Field,
    t: usize,
    powers: &mut [u16; 16384],
    logs: &mut [u16; 16384],
    rows: &mut [u16; 2048],
)
    requires { (t ≤ 62) × (length powers.old ≡ 16384) × (length logs.old ≡ 16384) × (length rows.old ≡ 2048) }
    ensures decoding { Decoding f t powers.new logs.new rows.new }
    ensures powers_len { (length powers.new ≡ 16384) × (length logs.new ≡ 16384) × (length rows.new ≡ 2048) }
{
    fill_tables(f, powers, logs);
    fill_rows(powers, rows, t);
}

// The set of at most t exponents below n whose sum of powers leaves the remainder, if there is one.
pub fn find_errors(
    f: Field,
    powers: &[u16; 16384],
    logs: &[u16; 16384],
    rows: &[u16; 2048],
    state: Register,
    t: usize,
    n: usize,
) -> Found
    requires decoding { Decoding f t powers.now logs.now rows.now }
    requires locatable { Locatable f t n (register state.words) }
    ensures { Finds f t n (register state.words) result }
{
    if is_zero(state) {
        return no_exponents(true);
    }
    let sums = syndromes(f, powers, logs, rows, state, t);
    let r = shortest(f, powers, logs, &sums, t);
    let c = r.c;
    let len = r.len;
    if t < len {
        return no_exponents(false);
    }
    let proposed = find_roots(f, powers, logs, &c, len);
    if passes(f, powers, &sums, t, n, &proposed, len) {
        return Found {
            located: true,
            count: len,
            exponents: proposed,
        };
    }
    if cannot_split(f, powers, logs, &c, len) {
        return no_exponents(false);
    }
    let places = locate(f, powers, logs, &c, len, n);
    let roots = places.exponents;
    let count = places.count;
    if count != len {
        return no_exponents(false);
    }
    let exponents = reversed(&roots, count);
    let located = sums_agree(f, powers, &sums, t, &exponents, count);
    Found {
        located: located,
        count: count,
        exponents: exponents,
    }
}
