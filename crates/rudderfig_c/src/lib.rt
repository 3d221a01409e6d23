// The exports of the library `rudderfig` for C: each calls the function of its own name there, and states its clauses again. No name, number or
// word is made here. include/rudderfig.h declares them.
//
//   lib          the questions on layouts, pages, blocks and remainders
//   locator      remainders handed to a hardware locator and taken back
//   parity       one block's message in pieces
//   explaining   explanations of layouts, blocks and page bits
#![tactic(auto)]

mod explaining;
mod locator;
mod parity;

ghost use Rattle.std.specs.Prelude.{◌≡◌};
ghost use Rattle.bch.specs.Answers.{locate_of};
ghost use Rattle.layout_plan.specs.Record.{words_of};
ghost use Rattle.layout.specs.Acceptance.{acceptance};
ghost use Rattle.layout.specs.Bits.{bit_answer, position_answer};
ghost use Rattle.page_theory.specs.Calls.{write_of, look_of, take_of, judge_of, claim_of};
ghost use Rattle.rudderfig.specs.Bits.{acceptance_word, bit_word, position_word};
ghost use Rattle.rudderfig.specs.Locating.{LocateReturns};
ghost use Rattle.rudderfig.specs.Pages.{WriteReturns, LookReturns, TakeReturns, judge_word, claim_word};

// Is this layout acceptable?
#[unsafe(no_mangle)]
pub extern "C" fn rudderfig_check_layout(edition: u64, words: &[u8]) -> u64
    ensures { result ≡ acceptance_word (acceptance (words_of edition words.now)) }
{
    rudderfig::rudderfig_check_layout(edition, words)
}

// Where does the page bit at `position` belong? Kind 0: block times 2^16 plus exponent. Kind 1: in the tail. Kind 2: in the mark.
#[unsafe(no_mangle)]
pub extern "C" fn rudderfig_locate_bit(edition: u64, words: &[u8], position: u64) -> u64
    ensures { result ≡ bit_word (bit_answer (words_of edition words.now) position) }
{
    rudderfig::rudderfig_locate_bit(edition, words, position)
}

// Where does the coefficient of x^exponent of a block lie? The value is the position.
#[unsafe(no_mangle)]
pub extern "C" fn rudderfig_bit_position(
    edition: u64,
    words: &[u8],
    block: u64,
    exponent: u64,
) -> u64
    ensures { result ≡ position_word (position_answer (words_of edition words.now) block exponent) }
{
    rudderfig::rudderfig_bit_position(edition, words, block, exponent)
}

// Writes a page from metadata and data.
#[unsafe(no_mangle)]
pub extern "C" fn rudderfig_write_page(
    edition: u64,
    words: &[u8],
    metadata: &[u8],
    data: &[u8],
    page: &mut [u8],
) -> u64
    ensures { WriteReturns (write_of (words_of edition words.now) metadata.now «data».now page.old)
        result page.new }
{
    rudderfig::rudderfig_write_page(edition, words, metadata, data, page)
}

// Looks at a page: the count of each block. Reply 9 names the lowest ruined block, and the counts are written all the same.
#[unsafe(no_mangle)]
pub extern "C" fn rudderfig_look_page(
    edition: u64,
    words: &[u8],
    page: &[u8],
    counts: &mut [u8],
) -> u64
    ensures { LookReturns (look_of (words_of edition words.now) page.now counts.old) result counts.new }
{
    rudderfig::rudderfig_look_page(edition, words, page, counts)
}

// Takes metadata and data out of a page. Reply 9 names the lowest ruined block.
#[unsafe(no_mangle)]
pub extern "C" fn rudderfig_take_page(
    edition: u64,
    words: &[u8],
    page: &[u8],
    metadata: &mut [u8],
    data: &mut [u8],
) -> u64
    ensures { TakeReturns (take_of (words_of edition words.now) page.now metadata.old «data».old)
        result metadata.new «data».new }
{
    rudderfig::rudderfig_take_page(edition, words, page, metadata, data)
}

// Judges one block of a page. The value is the number of its flips; reply 9 names the block.
#[unsafe(no_mangle)]
pub extern "C" fn rudderfig_judge_block(edition: u64, words: &[u8], page: &[u8], block: u64) -> u64
    ensures { result ≡ judge_word (judge_of (words_of edition words.now) page.now block) }
{
    rudderfig::rudderfig_judge_block(edition, words, page, block)
}

// Are these error locations of a block, reported by a hardware locator, right?
#[unsafe(no_mangle)]
pub extern "C" fn rudderfig_check_claim(
    edition: u64,
    words: &[u8],
    page: &[u8],
    block: u64,
    claims: &[u16],
) -> u64
    ensures { result ≡ claim_word (claim_of (words_of edition words.now) page.now block claims.now) }
{
    rudderfig::rudderfig_check_claim(edition, words, page, block, claims)
}

// From a remainder alone, which bits are wrong? The value is how many.
#[unsafe(no_mangle)]
pub extern "C" fn rudderfig_locate_errors(
    edition: u64,
    level_field: u64,
    field_choice: u64,
    n: u64,
    remainder: &[u8],
    places: &mut [u16],
) -> u64
    ensures { LocateReturns (locate_of edition level_field field_choice n remainder.now places.old)
        result places.new }
{
    rudderfig::rudderfig_locate_errors(edition, level_field, field_choice, n, remainder, places)
}
