// The library as C calls it: the questions of documents 01 and 02 on numbers and slices, each answered by one 64-bit word.
//
//   rudderfig_check_layout     is this layout acceptable?
//   rudderfig_locate_bit       where does a page bit belong?
//   rudderfig_bit_position     where does a code bit lie?
//   rudderfig_write_page       write a page from metadata and data
//   rudderfig_look_page        look at a page: the count of each block
//   rudderfig_take_page        take metadata and data out of a page
//   rudderfig_judge_block      judge one block of a page
//   rudderfig_check_claim      are these error locations, reported by a hardware locator, right?
//   rudderfig_locate_errors    from a remainder alone, which bits are wrong?
//   locator.rt has two more, which hand a remainder to a hardware locator and take it back
//   parity.rt has three more, which take one block's message in pieces
//   explaining.rt has three more, which explain layouts, blocks and page bits in words of their own
//
// Each passes its arguments on to the call of the crate that answers the question, and puts the answer into a word (crate `answer_words`):
// reply, the reply's block, a kind and a value. None asks anything of its caller but that a slice is one: include/rudderfig.h
// says what that means in C.
#![tactic(auto)]

pub mod explaining;
pub mod locator;
pub mod parity;

ghost use Rattle.std.specs.Prelude.{◌≡◌};
ghost use Rattle.replies.specs.Replies.{verdict_number, verdict_block};
ghost use Rattle.bch.specs.Answers.{locate_of};
ghost use Rattle.layout_plan.specs.Record.{words_of};
ghost use Rattle.layout.specs.Acceptance.{acceptance};
ghost use Rattle.layout.specs.Bits.{bit_answer, position_answer};
ghost use Rattle.page_theory.specs.Calls.{write_of, look_of, take_of, judge_of, claim_of};
ghost use Rattle.answer_words.specs.Answer.{answer_word};
ghost use Rattle.rudderfig.specs.Bits.{acceptance_word, bit_word, position_word};
ghost use Rattle.rudderfig.specs.Locating.{LocateReturns};
ghost use Rattle.rudderfig.specs.Pages.{WriteReturns, LookReturns, TakeReturns, judge_word, claim_word};

use answer_words::{done, refused, refused_by};
use layout::BitPlace;
use replies::Refusal;

// The word of an answer with no value.
fn plain_word(answer: Result<(), Refusal>) -> u64
    ensures { result ≡ answer_word (verdict_number answer) (verdict_block answer) 0 0 }
{
    match answer {
        Ok(()) => done(0, 0),
        Err(refusal) => refused_by(refusal),
    }
}

// Is this layout acceptable?
pub fn rudderfig_check_layout(edition: u64, words: &[u8]) -> u64
    ensures { result ≡ acceptance_word (acceptance (words_of edition words.now)) }
{
    match layout::check_layout(edition, words) {
        Ok(_) => done(0, 0),
        Err(refusal) => refused(layout::refusal_reply(refusal), 0),
    }
}

// Where does the page bit at `position` belong? Kind 0: block times 2^16 plus exponent. Kind 1: in the tail. Kind 2: in the mark.
pub fn rudderfig_locate_bit(edition: u64, words: &[u8], position: u64) -> u64
    ensures { result ≡ bit_word (bit_answer (words_of edition words.now) position) }
{
    match page_bits::locate_bit(edition, words, position) {
        Ok(BitPlace::InBlock { block, exponent }) => {
            done(0, 0x10000 * block as u32 + exponent as u32)
        }
        Ok(BitPlace::Tail) => done(1, 0),
        Ok(BitPlace::Mark) => done(2, 0),
        Err(refusal) => refused(layout::refusal_reply(refusal), 0),
    }
}

// Where does the coefficient of x^exponent of a block lie? The value is the position.
pub fn rudderfig_bit_position(edition: u64, words: &[u8], block: u64, exponent: u64) -> u64
    ensures { result ≡ position_word (position_answer (words_of edition words.now) block exponent) }
{
    match page_bits::bit_position(edition, words, block, exponent) {
        Ok(position) => done(0, position as u32),
        Err(refusal) => refused(layout::refusal_reply(refusal), 0),
    }
}

// Writes a page from metadata and data.
pub fn rudderfig_write_page(
    edition: u64,
    words: &[u8],
    metadata: &[u8],
    data: &[u8],
    page: &mut [u8],
) -> u64
    ensures { WriteReturns (write_of (words_of edition words.now) metadata.now «data».now page.old)
        result page.new }
{
    plain_word(page_write::write_page(edition, words, metadata, data, page))
}

// Looks at a page: the count of each block. Reply 9 names the lowest ruined block, and the counts are written all the same.
pub fn rudderfig_look_page(edition: u64, words: &[u8], page: &[u8], counts: &mut [u8]) -> u64
    ensures { LookReturns (look_of (words_of edition words.now) page.now counts.old) result counts.new }
{
    plain_word(page_look::look_page(edition, words, page, counts))
}

// Takes metadata and data out of a page. Reply 9 names the lowest ruined block.
pub fn rudderfig_take_page(
    edition: u64,
    words: &[u8],
    page: &[u8],
    metadata: &mut [u8],
    data: &mut [u8],
) -> u64
    ensures { TakeReturns (take_of (words_of edition words.now) page.now metadata.old «data».old)
        result metadata.new «data».new }
{
    plain_word(page_take::take_page(edition, words, page, metadata, data))
}

// Judges one block of a page. The value is the number of its flips; reply 9 names the block.
pub fn rudderfig_judge_block(edition: u64, words: &[u8], page: &[u8], block: u64) -> u64
    ensures { result ≡ judge_word (judge_of (words_of edition words.now) page.now block) }
{
    match page_judge::judge_block(edition, words, page, block) {
        Ok(flips) => done(0, flips as u32),
        Err(refusal) => refused_by(refusal),
    }
}

// Are these error locations of a block, reported by a hardware locator, right?
pub fn rudderfig_check_claim(
    edition: u64,
    words: &[u8],
    page: &[u8],
    block: u64,
    claims: &[u16],
) -> u64
    ensures { result ≡ claim_word (claim_of (words_of edition words.now) page.now block claims.now) }
{
    match page_claim::check_claim(edition, words, page, block, claims) {
        Ok(()) => done(0, 0),
        Err(refusal) => refused(replies::refusal_number(refusal), 0),
    }
}

// From a remainder alone, which bits are wrong? The value is how many.
pub fn rudderfig_locate_errors(
    edition: u64,
    level_field: u64,
    field_choice: u64,
    n: u64,
    remainder: &[u8],
    places: &mut [u16],
) -> u64
    ensures { LocateReturns (locate_of edition level_field field_choice n remainder.now places.old)
        result places.new }
{
    match bch::locate_errors(edition, level_field, field_choice, n, remainder, places) {
        Ok(count) => done(0, count as u32),
        Err(refusal) => refused_by(refusal),
    }
}
