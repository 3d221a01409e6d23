// The level field and the lengths of a request.
ghost use Rattle.std.specs.Prelude.{◌≡◌, ◌≤◌};
ghost use Rattle.fragments.specs.Calls.{offered, coefficients, fitting, requested};

use remainder::coefficients::bytes_for;
use replies::Refusal;

// Whether the locator has the level.
fn is_offered(level_field: u64) -> bool
    ensures { result ≡ offered level_field }
{
    matches!(level_field, 2 | 4 | 8)
}

// The number of coefficients of a remainder, mt.
fn parity_bits(level_field: u64) -> usize
    requires { level_field ≤ 8 }
    ensures { result ≡ coefficients level_field }
{
    13 * (2 * level_field as usize)
}

// Whether the bytes of a remainder and the number of fragments are right.
fn has_lengths(bits: usize, bytes: usize, count: usize) -> bool
    requires { bits ≤ 208 }
    ensures { result ≡ fitting bits bytes count }
{
    if bytes != bytes_for(bits) {
        return false;
    }
    count == 7
}

// The number of coefficients of a remainder, or why a request about so many bytes and fragments is refused.
pub fn requested(level_field: u64, bytes: usize, count: usize) -> Result<usize, Refusal>
    ensures { result ≡ requested level_field bytes count }
{
    if !is_offered(level_field) {
        return Err(Refusal::LevelTooHigh);
    }
    let bits = parity_bits(level_field);
    if !has_lengths(bits, bytes, count) {
        return Err(Refusal::BufferLength);
    }
    Ok(bits)
}
