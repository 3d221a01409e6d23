// The steps of the call `locate_errors`: the numbers and lengths are looked at in the order of their replies, then the remainder.
// The tables are made only for a remainder that is not zero, in the one function that has room for them.
ghost use Rattle.std.specs.Prelude.{◌≡◌, ◌*◌, ◌≤◌, length};
ghost use Rattle.field.specs.Field.{degree, longest};
ghost use Rattle.code.specs.Locations.{locate};
ghost use Rattle.code.specs.Register.{register};
ghost use Rattle.remainder.specs.Remainder.{number_of};
ghost use Rattle.decoder.specs.Locating.{Locatable, answer};
ghost use Rattle.bch.specs.Answers.{ended, list_in, remainder_in, locate_in};

use decoder::{Found, fill_decoding, find_errors};
use field::Field;
use register_digits::from_bytes;
use remainder::Register;
use remainder::coefficients::{is_below, is_zero, parity_bits};
use replies::{Refusal, highest};

// Lists what was found at the start of the places. Where nothing was, no place is written.
fn report(found: Found, places: &mut [u16]) -> Result<usize, Refusal>
    requires { (found.count ≤ 64) × (found.count ≤ length places.old) }
    ensures { ended result places.new ≡ list_in (answer found) places.old }
{
    if !found.located {
        return Err(Refusal::Uncorrectable(0));
    }
    let count = found.count;
    places[..count].copy_from_slice(&found.exponents[..count]);
    Ok(count)
}

// The answer for a remainder that is not zero.
fn locate_by_tables(
    f: Field,
    state: Register,
    t: usize,
    n: usize,
    places: &mut [u16],
) -> Result<usize, Refusal>
    requires { (Locatable f t n (register state.words)) × (t ≤ length places.old) }
    ensures { ended result places.new ≡ list_in (locate f t n (register state.words)) places.old }
{
    let mut powers = [0u16; 16384];
    let mut logs = [0u16; 16384];
    let mut rows = [0u16; 2048];
    fill_decoding(f, t, &mut powers, &mut logs, &mut rows);
    let found = find_errors(f, &powers, &logs, &rows, state, t, n);
    report(found, places)
}

// The answer for a remainder of a right length.
fn locate_remainder(
    f: Field,
    t: usize,
    n: usize,
    remainder: &[u8],
    places: &mut [u16],
) -> Result<usize, Refusal>
    requires { (t ≤ 62) × (degree f * t ≤ n) × (n ≤ longest f) × (length remainder.now ≤ 112) × (t ≤ length places.old) }
    ensures { ended result places.new ≡ remainder_in f t n (number_of remainder.now) places.old }
{
    let state = from_bytes(remainder);
    let bits = parity_bits(f, t);
    if !is_below(state, bits) {
        return Err(Refusal::RemainderTooWide);
    }
    if is_zero(state) {
        return Ok(0);
    }
    locate_by_tables(f, state, t, n, places)
}

// The answer in a field, under an edition.
pub fn locate_in(
    edition: u64,
    f: Field,
    level_field: u64,
    n: u64,
    remainder: &[u8],
    places: &mut [u16],
) -> Result<usize, Refusal>
    ensures { ended result places.new ≡ locate_in edition f level_field n remainder.now places.old }
{
    if highest(edition) < level_field {
        return Err(Refusal::LevelTooHigh);
    }
    if level_field == 0 {
        return Err(Refusal::EmptyMessage);
    }
    let t = 2 * level_field as usize;
    let bits = parity_bits(f, t);
    if n <= bits as u64 {
        return Err(Refusal::EmptyMessage);
    }
    if (f.longest() as u64) < n {
        return Err(Refusal::BlockTooLong);
    }
    if remainder.len() != (bits + 7) / 8 {
        return Err(Refusal::BufferLength);
    }
    if places.len() < t {
        return Err(Refusal::BufferLength);
    }
    locate_remainder(f, t, n as usize, remainder, places)
}
