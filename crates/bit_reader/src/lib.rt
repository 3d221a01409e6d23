// A page read bit by bit from any position (document 01, "Bits and polynomials").
//
// A reader holds a reference to a page and a position. It gives the bit at its position with the position after it,
// or `None` at the end. A reader goes by value; moved to the position after a bit it gives the next one. Document 01
// asks for this form ("Where each form goes"): a walk takes `new`, `next`, `position` and `moved`, also where the
// library itself has no use for one of them.
//
//   steps       step_at, bit_or_zero: the work, on a page and a position
//   BitReader   new, position, moved: made, asked where it stands, moved; next: taken apart for the function on its page and position
//   next_bit    one bit by way of a reader; its parameters are a page and a position, so its callers hold no reader
//
// No function asks anything of its arguments. What a read gives stands in specs/Reading.antt; proofs/Walking.antt has the laws (a read
// inside the page and at its end, what n reads give).
#![tactic(auto)]

ghost use Rattle.std.specs.Prelude.{◌≡◌};
ghost use Rattle.bit_reader.specs.Reading.{step_at};

use crate::steps::step_at;

pub mod steps;

// A page, and the position of the bit that is read next.
#[derive(Clone, Copy)]
pub struct BitReader<'a> {
    pub page: &'a [u8],
    pub position: usize,
}

impl<'a> BitReader<'a> {
    // A reader of a page that stands at any position.
    pub fn new(page: &'a [u8], position: usize) -> BitReader<'a>
        ensures { (result.page ≡ page.entry) × (result.position ≡ position) }
    {
        BitReader { page, position }
    }

    // Where the reader stands.
    pub fn position(self) -> usize
        ensures { result ≡ self.entry.position }
    {
        self.position
    }

    // The next bit with the position after it, or `None` at the end.
    // By hand: no `Iterator`. `next` goes by value and answers the position too: its contract, and clauses on `step_at`,
    // say so.
    pub fn next(self) -> Option<(u8, usize)>
        ensures { result ≡ step_at self.entry.page.now self.entry.position }
    {
        step_at(self.page, self.position)
    }

    // A reader of the same page at another position.
    pub fn moved(self, position: usize) -> BitReader<'a>
        ensures { (result.page ≡ self.entry.page) × (result.position ≡ position) }
    {
        BitReader {
            page: self.page,
            position,
        }
    }
}

// The bit at a position with the position after it, or `None` at the end, by way of a reader.
pub fn next_bit(page: &[u8], position: usize) -> Option<(u8, usize)>
    ensures { result ≡ step_at page.now position }
{
    BitReader::new(page, position).next()
}
