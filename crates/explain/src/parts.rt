// What the bits of a page are, under a plan.
ghost use Rattle.std.specs.Prelude.{◌≡◌, ◌<◌, Ok};
ghost use Rattle.layout_plan.specs.Plan.{covered};
ghost use Rattle.layout.specs.Bits.{bit_in};
ghost use Rattle.explain.specs.Parts.{place_at, message_place, covered_place, placed, bit_part};

use crate::{About, Part, Place, Why};
use layout::BitPlace;
use layout_plan::{Plan, block_covered, block_shape};
use page_plan::message_start;
use replies::Refusal;

// A place by its position: byte and bit of the page.
fn place_at(part: Part, block: u16, index: u64, position: u64) -> Place
    ensures { result ≡ place_at part block index position }
{
    Place {
        part: part,
        block: block,
        byte: position / 8,
        bit: 7 - position % 8,
        index: index,
    }
}

// A bit of a message, by its place among the bits of the payload.
fn message_place(plan: Plan, block: u16, at: u64, position: u64) -> Place
    ensures { result ≡ message_place plan block at position }
{
    let byte = at / 8;
    let metadata = plan.metadata as u64;
    if byte < metadata {
        return place_at(Part::Metadata, block, byte, position);
    }
    place_at(Part::Data, block, byte - metadata, position)
}

// A covered bit, by its exponent: the message comes first, then the parity.
fn covered_place(plan: Plan, block: u16, exponent: u64, position: u64) -> Place
    requires { exponent < covered plan block }
    ensures { result ≡ covered_place plan block exponent position }
{
    let shape = block_shape(plan, block);
    let message = shape.message as u64;
    let n = block_covered(plan, block) as u64;
    let at = n - 1 - exponent;
    if message <= at {
        return place_at(Part::Parity, block, 0, position);
    }
    let from = message_start(plan, block) as u64;
    message_place(plan, block, from + at, position)
}

// A bit of the page, by its place in Bits.
fn placed(plan: Plan, position: u64, place: BitPlace) -> Place
    requires { Ok place ≡ bit_in plan position }
    ensures { result ≡ placed plan position place }
{
    match place {
        BitPlace::InBlock { block, exponent } => {
            covered_place(plan, block as u16, exponent, position)
        }
        BitPlace::Tail => place_at(Part::Tail, 0, 0, position),
        BitPlace::Mark => place_at(Part::Mark, 0, 0, position),
    }
}

// The answer to a position, by what Bits answers.
pub fn part_by(
    plan: Plan,
    position: u64,
    answer: Result<BitPlace, layout::Refusal>,
) -> Result<Place, Why>
    requires { answer ≡ bit_in plan position }
    ensures { result ≡ bit_part plan position }
{
    match answer {
        Ok(place) => Ok(placed(plan, position, place)),
        Err(_) => Err(Why {
            refusal: Refusal::OutOfRange,
            about: About::Position,
            found: position,
            limit: 8 * plan.size as u64,
        }),
    }
}
