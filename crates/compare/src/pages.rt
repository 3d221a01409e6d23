// The calls on two pages.
ghost use Rattle.std.specs.Prelude.{◌≡◌, length, leb};
ghost use Rattle.replies.specs.Replies.{verdict_number};
ghost use Rattle.layout_plan.specs.Record.{words_of};
ghost use Rattle.page_theory.specs.Calls.{look_of};
ghost use Rattle.compare.specs.Calls.{pages_reply, counts_reply, compared, compare_lent, compare_in, compare_of, found_by, difference_in, difference_of};
ghost use Rattle.compare.specs.Steps.{Under};

use differences::next_from;
use layout::check_layout;
use layout_plan::{Plan, plan_of};
use page_look::look_page;
use replies::Refusal;

// Whether pages of a size are compared.
fn is_compared(size: usize) -> bool
    ensures { result ≡ leb size 16384 }
{
    size <= 16384
}

// What the lengths of two pages are refused for.
fn pages_reply(plan: Plan, first: usize, second: usize) -> Result<(), Refusal>
    ensures { verdict_number result ≡ pages_reply plan first second }
{
    let size = plan.size as usize;
    if first != size {
        return Err(Refusal::PageLength);
    }
    if second != size {
        return Err(Refusal::PageLength);
    }
    if !is_compared(size) {
        return Err(Refusal::BufferLength);
    }
    Ok(())
}

// What the lengths of the lent counts are refused for.
fn counts_reply(plan: Plan, first: usize, second: usize) -> Result<(), Refusal>
    ensures { verdict_number result ≡ counts_reply plan first second }
{
    let blocks = plan.blocks as usize;
    if first != blocks {
        return Err(Refusal::BufferLength);
    }
    if second != blocks {
        return Err(Refusal::BufferLength);
    }
    Ok(())
}

// The counts of a page, whether a block is ruined or not.
fn look_counts(edition: u64, words: &[u8], page: &[u8], counts: &mut [u8])
    ensures { counts.new ≡ (look_of (words_of edition words.now) page.now counts.old).counts }
{
    let _ = look_page(edition, words, page, counts);
}

// Compares pages whose lengths are right.
fn compare_lent(
    edition: u64,
    words: &[u8],
    plan: Plan,
    first: &[u8],
    second: &[u8],
    firsts: &mut [u8],
    seconds: &mut [u8],
) -> Result<(), Refusal>
    requires { (Under (words_of edition words.now) plan) × (pages_reply plan (length first.now) (length second.now) ≡ 0) }
    ensures { compared (verdict_number result) firsts.new seconds.new
        ≡ compare_lent plan first.now second.now firsts.old seconds.old }
{
    counts_reply(plan, firsts.len(), seconds.len())?;
    look_counts(edition, words, first, firsts);
    look_counts(edition, words, second, seconds);
    Ok(())
}

// Compares pages under the plan of an accepted layout.
fn compare_in(
    edition: u64,
    words: &[u8],
    plan: Plan,
    first: &[u8],
    second: &[u8],
    firsts: &mut [u8],
    seconds: &mut [u8],
) -> Result<(), Refusal>
    requires { Under (words_of edition words.now) plan }
    ensures { compared (verdict_number result) firsts.new seconds.new
        ≡ compare_in plan first.now second.now firsts.old seconds.old }
{
    pages_reply(plan, first.len(), second.len())?;
    compare_lent(edition, words, plan, first, second, firsts, seconds)
}

// Compares two pages: the counts of all blocks of each. `words` is the layout record.
pub fn compare_pages(
    edition: u64,
    words: &[u8],
    first: &[u8],
    second: &[u8],
    firsts: &mut [u8],
    seconds: &mut [u8],
) -> Result<(), Refusal>
    ensures { compared (verdict_number result) firsts.new seconds.new
        ≡ compare_of (words_of edition words.now) first.now second.now firsts.old seconds.old }
{
    let layout = check_layout(edition, words)?;
    compare_in(
        edition,
        words,
        plan_of(layout),
        first,
        second,
        firsts,
        seconds,
    )
}

// The next position under the plan of an accepted layout.
fn difference_in(
    plan: Plan,
    first: &[u8],
    second: &[u8],
    from: usize,
) -> Result<Option<usize>, Refusal>
    ensures { found_by result ≡ difference_in plan first.now second.now from }
{
    pages_reply(plan, first.len(), second.len())?;
    Ok(next_from(plan.mark, plan.size, first, second, from))
}

// The first position from `from` on at which two pages differ outside the mark, or none where they are alike from there on. `words` is the
// layout record.
pub fn next_difference(
    edition: u64,
    words: &[u8],
    first: &[u8],
    second: &[u8],
    from: usize,
) -> Result<Option<usize>, Refusal>
    ensures { found_by result ≡ difference_of (words_of edition words.now) first.now second.now from }
{
    let layout = check_layout(edition, words)?;
    difference_in(plan_of(layout), first, second, from)
}
