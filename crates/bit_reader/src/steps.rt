// Reading on a page and a position.
ghost use Rattle.std.specs.Prelude.{◌≡◌, ◌+◌, ◌<◌, Some};
ghost use Rattle.bits.specs.Bits.{bit_at};
ghost use Rattle.bit_reader.specs.Reading.{step_at, bit_in};

use bits::read::bit_at;

// The greatest position.
const GREATEST: usize = 18446744073709551615;

// The position after one that is not the greatest.
fn position_after(p: usize) -> usize
    requires { p < 18446744073709551615 }
    ensures { result ≡ p + 1 }
{
    p + 1
}

// The bit at position p, with the position after it.
fn bit_before(page: &[u8], p: usize, after: usize) -> Option<(u8, usize)>
    ensures { result ≡ Some (bit_at page.now p, after) }
{
    let b = bit_at(page, p);
    Some((b, after))
}

// The bit at position p with the position after it, or `None` at the end.
pub fn step_at(page: &[u8], p: usize) -> Option<(u8, usize)>
    ensures { result ≡ step_at page.now p }
{
    if p == GREATEST {
        return None;
    }
    let after = position_after(p);
    if p / 8 < page.len() {
        bit_before(page, p, after)
    } else {
        None
    }
}

// The bit that a read gave, 0 at the end.
pub fn bit_or_zero(step: Option<(u8, usize)>) -> u8
    ensures { result ≡ bit_in step }
{
    match step {
        Some((b, _)) => b,
        None => 0,
    }
}
