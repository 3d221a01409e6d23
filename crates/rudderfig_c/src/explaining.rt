// Explanations, as C calls them.
ghost use Rattle.std.specs.Prelude.{◌≡◌};
ghost use Rattle.layout_plan.specs.Record.{words_of};
ghost use Rattle.explain.specs.Reasons.{explain_layout};
ghost use Rattle.explain.specs.Parts.{explain_bit};
ghost use Rattle.page_explain.specs.Explain.{explain_of};
ghost use Rattle.explain_words.specs.Words.{layout_word, place_word};
ghost use Rattle.rudderfig.specs.Explaining.{ExplainReturns};

// Is this layout accepted, and if not, why?
#[unsafe(no_mangle)]
pub extern "C" fn rudderfig_explain_layout(edition: u64, words: &[u8]) -> u64
    ensures { result ≡ layout_word (explain_layout (words_of edition words.now)) }
{
    rudderfig::explaining::rudderfig_explain_layout(edition, words)
}

// The flips of a block of a page, listed as page positions; or its zeros, that it is ruined, or why the call is refused.
#[unsafe(no_mangle)]
pub extern "C" fn rudderfig_explain_block(
    edition: u64,
    words: &[u8],
    page: &[u8],
    block: u64,
    list: &mut [u32],
) -> u64
    ensures { ExplainReturns (explain_of (words_of edition words.now) page.now block list.old)
        result list.new }
{
    rudderfig::explaining::rudderfig_explain_block(edition, words, page, block, list)
}

// What is the page bit at `position`?
#[unsafe(no_mangle)]
pub extern "C" fn rudderfig_explain_bit(edition: u64, words: &[u8], position: u64) -> u64
    ensures { result ≡ place_word (explain_bit (words_of edition words.now) position) }
{
    rudderfig::explaining::rudderfig_explain_bit(edition, words, position)
}
