// Why a layout is refused, and what a bit of a page is (document 02, E2).
//
//   explain_layout    is this layout accepted? If not: which reply, what it is about, and the two numbers that were compared
//   explain_bit       what is the page bit at a position? Metadata, data or parity, and of which block; or the tail, or the mark
//
// Each takes the edition and the layout record as bytes of any length, and asks nothing of its caller. reasons.rt puts what `layout` found
// into one form for all refusals (`Why`), which the crate `page_explain` uses too; parts.rt takes a position apart.
// specs/Reasons.antt and specs/Parts.antt say what is answered; proofs/Truth.antt that a reason is true and the one that decided,
// proofs/Written.antt that the parts of a written page are its metadata, its data and its parities.
#![tactic(auto)]

mod parts;
mod reasons;

ghost use Rattle.std.specs.Prelude.{◌≡◌};
ghost use Rattle.layout_plan.specs.Record.{words_of};
ghost use Rattle.explain.specs.Reasons.{explain_layout};
ghost use Rattle.explain.specs.Parts.{explain_bit};

use layout::check_layout;
use layout_plan::plan_of;
use page_bits::locate_bit;
pub use reasons::why_refused;
use replies::Refusal;

// What a refusal is about: the edition, the record's length; a rule of the layout that block 0, a later block or the page breaks; the
// length of the lent page or of the lent list; a block number; a page position.
#[derive(Clone, Copy)]
pub enum About {
    Edition,
    Record,
    First,
    Later,
    Page,
    Lent,
    List,
    Block,
    Position,
}

// Why a call is refused: the case of document 01's table, what it is about, and the two numbers that were compared.
#[derive(Clone, Copy)]
pub struct Why {
    pub refusal: Refusal,
    pub about: About,
    pub found: u64,
    pub limit: u64,
}

// The parts of a page.
#[derive(Clone, Copy)]
pub enum Part {
    Metadata,
    Data,
    Parity,
    Tail,
    Mark,
}

// A bit of a page: its part, its block where it has one, byte and bit of the page, and which byte of metadata or
// data it belongs to.
#[derive(Clone, Copy)]
pub struct Place {
    pub part: Part,
    pub block: u16,
    pub byte: u64,
    pub bit: u64,
    pub index: u64,
}

// Is this layout accepted, and if not, why?
pub fn explain_layout(edition: u64, words: &[u8]) -> Result<(), Why>
    ensures { result ≡ explain_layout (words_of edition words.now) }
{
    match check_layout(edition, words) {
        Ok(_) => Ok(()),
        Err(refusal) => Err(why_refused(edition, words.len(), refusal)),
    }
}

// What is the page bit at `position`?
pub fn explain_bit(edition: u64, words: &[u8], position: u64) -> Result<Place, Why>
    ensures { result ≡ explain_bit (words_of edition words.now) position }
{
    match check_layout(edition, words) {
        Ok(layout) => {
            let answer = locate_bit(edition, words, position);
            parts::part_by(plan_of(layout), position, answer)
        }
        Err(refusal) => Err(why_refused(edition, words.len(), refusal)),
    }
}
