// Power sums of exponents: the syndromes of a remainder, and the recheck of the places that were found for it.
//
//   syndromes      the values of a remainder at a, a^2, .., a^(2t)
//   sums_agree     whether the power sums of a list of places are the syndromes
//
// The value of a polynomial at a^j is the sum of a^(jp) over the exponents p of its terms; it stands at the place j - 1 of an array.
// The sums with odd j are worked out, for a remainder by crate `syndrome_lanes`, for a list of places by adding the powers of one after the other.
// The sums with even j are squares.
ghost use Rattle.std.specs.Prelude.{◌≡◌, [], ◌∷◌, ℕ, ◌+◌, ◌*◌, ◌^◌, ◌<◌, ◌≤◌, length, get_or, take};
ghost use Rattle.field.specs.Field.{degree, longest};
ghost use Rattle.field.specs.Tables.{Tables};
ghost use Rattle.powers.specs.Powers.{Powers};
ghost use Rattle.code.specs.Register.{register};
ghost use Rattle.series.specs.Series.{Elements};
ghost use Rattle.bits.specs.Decides.{Decides};
ghost use Rattle.syndrome_lanes.specs.Lanes.{Decoding};
ghost use Rattle.syndromes.specs.PowerSums.{Summed, Agrees, Squared, Spread, Syndromes};

use field::Field;
use field_tables::{product_by_tables, wrap};
use remainder::Register;
use syndrome_lanes::lane_values;

// Adds a^(jp) to the sum with each odd j below 2t.
fn add_powers(f: Field, powers: &[u16; 16384], sums: &mut [u16; 128], t: usize, p: usize)
    requires powers { Powers f powers.now }
    requires t_bound { (t ≤ 62) × (p < longest f) × (Elements f sums.old) }
    ensures { Summed f t sums.old (p ∷ []) sums.new }
{
    let double = wrap(f, p + p);
    let mut e = p;
    for i in 0..t {
        sums[i + i] ^= powers[e];
        e = wrap(f, e + double);
    }
}

// The sums with even j, each the square of the sum with the half of j.
fn add_squares(
    f: Field,
    powers: &[u16; 16384],
    logs: &[u16; 16384],
    sums: &mut [u16; 128],
    t: usize,
)
    requires tables { Tables f powers.now logs.now }
    requires t_bound { (t ≤ 62) × (Elements f sums.old) }
    ensures { Squared f t sums.old sums.new }
{
    for i in 0..t {
        let v = sums[i];
        let square = product_by_tables(f, powers, logs, v, v);
        sums[i + i + 1] = square;
    }
}

// The lanes at the places of the sums with odd j.
fn spread(lanes: &[u16; 64], t: usize) -> [u16; 128]
    requires { t ≤ 62 }
    ensures { Spread t lanes.now result }
{
    let mut sums = [0; 128];
    for i in 0..t {
        sums[i + i] = lanes[i];
    }
    sums
}

// The values of a remainder at a, a^2, .., a^(2t).
pub fn syndromes(
    f: Field,
    powers: &[u16; 16384],
    logs: &[u16; 16384],
    rows: &[u16; 2048],
    state: Register,
    t: usize,
) -> [u16; 128]
    requires decoding { Decoding f t powers.now logs.now rows.now }
    requires t_bound { (t ≤ 62) × (register state.words < 2 ^ (degree f * t)) }
    ensures { Syndromes f t (register state.words) result }
{
    let lanes = lane_values(f, powers, logs, rows, state, t);
    let mut sums = spread(&lanes, t);
    add_squares(f, powers, logs, &mut sums, t);
    sums
}

// Whether the sum with each odd j below 2t is zero.
fn all_zero(sums: &[u16; 128], t: usize) -> bool
    requires { t ≤ 62 }
    ensures { Decides result ((i : ℕ) → i < t → get_or sums.now (i + i) 0 ≡ 0) }
{
    for i in 0..t {
        if sums[i + i] != 0 {
            return false;
        }
    }
    true
}

// Whether the sums with odd j are the power sums of the first places of a list.
pub fn sums_agree(
    f: Field,
    powers: &[u16; 16384],
    sums: &[u16; 128],
    t: usize,
    places: &[u16; 64],
    count: usize,
) -> bool
    requires powers { Powers f powers.now }
    requires t_bound { (t ≤ 62) × (Elements f sums.now) × (count ≤ 64) × ((k : ℕ) → k < count → get_or places.now k 0 < longest f) × (length places.now ≡ 64) }
    ensures { Decides result (Agrees f t sums.now (take count places.now)) }
{
    let mut left = *sums;
    for k in 0..count {
        let p = places[k] as usize;
        add_powers(f, powers, &mut left, t, p);
    }
    all_zero(&left, t)
}
