// Where the bits of a page belong (document 01, "Bits and polynomials" and "Bits"; document 02, E7).
//
//   locate_bit       where does a page bit belong? Block and exponent, the tail, or the mark
//   bit_position     where does a code bit lie? Its position in the page
//
// Each takes the edition and the layout record as bytes of any length, and asks nothing of its caller. places.rt answers under the plan of an accepted
// layout: the block of a stream position is found by one division, and positions and exponents of a block run against each other. The
// stream leaves the mark out (crate mark), so a page position before it is its own stream position and one behind it is less by its bits.
#![tactic(auto)]

mod places;

ghost use Rattle.std.specs.Prelude.{◌≡◌};
ghost use Rattle.layout_plan.specs.Record.{words_of};
ghost use Rattle.layout.specs.Bits.{bit_for, bit_answer, position_for, position_answer};

use layout::{BitPlace, Refusal, check_layout};
use layout_plan::{Layout, plan_of};

// Where does the page bit at `position` belong, under the answer to a layout, whatever names it?
#[tactic(auto, unfolding(layout::specs::Bits::bit_for))]
pub fn bit_for(answer: Result<Layout, Refusal>, position: u64) -> Result<BitPlace, Refusal>
    ensures { result ≡ bit_for answer position }
{
    places::bit_in(plan_of(answer?), position)
}

// Where does the coefficient of x^exponent of a block lie, under the answer to a layout?
#[tactic(auto, unfolding(layout::specs::Bits::position_for))]
pub fn position_for(
    answer: Result<Layout, Refusal>,
    block: u64,
    exponent: u64,
) -> Result<u64, Refusal>
    ensures { result ≡ position_for answer block exponent }
{
    places::position_in(plan_of(answer?), block, exponent)
}

// Where does the page bit at `position` belong?
pub fn locate_bit(edition: u64, words: &[u8], position: u64) -> Result<BitPlace, Refusal>
    ensures { result ≡ bit_answer (words_of edition words.now) position }
{
    bit_for(check_layout(edition, words), position)
}

// Where does the coefficient of x^exponent of a block lie?
pub fn bit_position(edition: u64, words: &[u8], block: u64, exponent: u64) -> Result<u64, Refusal>
    ensures { result ≡ position_answer (words_of edition words.now) block exponent }
{
    position_for(check_layout(edition, words), block, exponent)
}
