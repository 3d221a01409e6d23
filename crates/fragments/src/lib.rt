// Remainders for a hardware locator (document 004; document 02, E9): to seven fragments of 32 bits, and back.
//
//   export_fragments     the fragments of a remainder
//   import_fragments     the remainder that fragments hold
//
// The locator knows m = 13 and the levels t = 4, 8 and 16. Fragment 0 has the lowest coefficients, the lowest of all in its bit 0. Bit 16 of
// fragment 6, which starts the locator, comes right above the highest coefficient at t = 16; it is zero here, as every unused bit is.
// Neither call asks anything of its caller. Its answer is that what was lent to it is written, or why it is as it was: a level that the
// locator does not have is refused as one that is too high, a lent buffer by its length, a one above the coefficients of a remainder as
// too wide. The steps:
// 1. request.rt looks at the level field and the lengths.
// 2. The number is brought into a register of the crate `remainder`, and tested for ones above bit mt - 1.
// 3. Crate `register_fragments` writes the fragments of a register, and reads them.
// What is right is said by register_fragments/specs/Fragments.antt and specs/Calls.antt; proofs/Meaning.antt says it bit by bit, and
// proofs/Back.antt shows that each call undoes the other. Crate `fragment_trips` runs one after the other.
#![tactic(auto)]

pub mod answers;
mod request;

ghost use Rattle.std.specs.Prelude.{◌≡◌};
ghost use Rattle.fragments.specs.Calls.{ended, export_of, import_of};

use register_digits::{from_bytes, to_bytes};
use register_fragments::{from_fragments, to_fragments};
use remainder::coefficients::is_below;
use replies::Refusal;
use request::requested;

// The fragments of a remainder, which has the highest coefficient first, right-aligned.
pub fn export_fragments(
    level_field: u64,
    remainder: &[u8],
    fragments: &mut [u32],
) -> Result<(), Refusal>
    ensures { ended result fragments.new ≡ export_of level_field remainder.now fragments.old }
{
    let bits = requested(level_field, remainder.len(), fragments.len())?;
    let state = from_bytes(remainder);
    if !is_below(state, bits) {
        return Err(Refusal::RemainderTooWide);
    }
    to_fragments(state, fragments);
    Ok(())
}

// The remainder that fragments hold, in the same form.
pub fn import_fragments(
    level_field: u64,
    fragments: &[u32],
    remainder: &mut [u8],
) -> Result<(), Refusal>
    ensures { ended result remainder.new ≡ import_of level_field fragments.now remainder.old }
{
    let bits = requested(level_field, remainder.len(), fragments.len())?;
    let held = from_fragments(fragments);
    if !is_below(held, bits) {
        return Err(Refusal::RemainderTooWide);
    }
    to_bytes(held, remainder);
    Ok(())
}
