// Decoding of the BCH codes of document 01, "The code": from a remainder alone, which bits are wrong (document 01, "Remainder").
//
//   locate_errors    the exponents below n, at most t, whose sum of powers of x leaves a remainder
//
// It asks nothing of its caller. request.rt looks at the numbers and lengths, makes the tables of powers and logarithms where the
// remainder is not zero, has crate `decoder` find the set, and lists it. A refusal writes nothing.
// What is right is said by specs/Answers.antt over the code alone; that the decoder finds it is shown in crate `decoder`, and in
// proofs/Remainder.antt that reply 9 is given exactly if there is no set, and that a refusal changes no place.
#![tactic(auto)]

pub mod answers;
mod request;

ghost use Rattle.std.specs.Prelude.{◌≡◌};
ghost use Rattle.bch.specs.Answers.{ended, locate_of};

use field::Field;
use replies::{Refusal, offered};

// From a remainder alone, which bits are wrong? The remainder has the highest coefficient first, right-aligned. The exponents are
// listed from the highest down at the start of `places`. The answer is the size of the set that is listed, or why none is.
pub fn locate_errors(
    edition: u64,
    level_field: u64,
    field_choice: u64,
    n: u64,
    remainder: &[u8],
    places: &mut [u16],
) -> Result<usize, Refusal>
    ensures { ended result places.new ≡ locate_of edition level_field field_choice n remainder.now places.old }
{
    if !offered(edition) {
        return Err(Refusal::OutOfRange);
    }
    match Field::choose(field_choice) {
        Some(f) => request::locate_in(edition, f, level_field, n, remainder, places),
        None => Err(Refusal::OutOfRange),
    }
}
