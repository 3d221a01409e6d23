// Explanations, as C calls them (document 02, E2).
//
//   rudderfig_explain_layout    is this layout accepted, and if not, why?
//   rudderfig_explain_block     the flips of a block, or what else became of it
//   rudderfig_explain_bit       what is a page bit: metadata, data or parity, the tail or the mark?
//
// Each passes its arguments on and puts the explanation into a word (crate `explain_words`), which has other numbers than answer.rt's.
ghost use Rattle.std.specs.Prelude.{◌≡◌};
ghost use Rattle.layout_plan.specs.Record.{words_of};
ghost use Rattle.explain.specs.Reasons.{explain_layout};
ghost use Rattle.explain.specs.Parts.{explain_bit};
ghost use Rattle.page_explain.specs.Explain.{explain_of};
ghost use Rattle.explain_words.specs.Words.{layout_word, place_word};
ghost use Rattle.rudderfig.specs.Explaining.{ExplainReturns};

use explain::{explain_bit, explain_layout};
use explain_words::{block_word, layout_word, place_word};
use page_explain::explain_block;

// Is this layout accepted, and if not, why?
pub fn rudderfig_explain_layout(edition: u64, words: &[u8]) -> u64
    ensures { result ≡ layout_word (explain_layout (words_of edition words.now)) }
{
    let answer = explain_layout(edition, words);
    layout_word(answer)
}

// The flips of a block of a page, listed as page positions; or its zeros, that it is ruined, or why the call is refused.
pub fn rudderfig_explain_block(
    edition: u64,
    words: &[u8],
    page: &[u8],
    block: u64,
    list: &mut [u32],
) -> u64
    ensures { ExplainReturns (explain_of (words_of edition words.now) page.now block list.old)
        result list.new }
{
    let answer = explain_block(edition, words, page, block, list);
    block_word(answer)
}

// What is the page bit at `position`?
pub fn rudderfig_explain_bit(edition: u64, words: &[u8], position: u64) -> u64
    ensures { result ≡ place_word (explain_bit (words_of edition words.now) position) }
{
    let answer = explain_bit(edition, words, position);
    place_word(answer)
}
