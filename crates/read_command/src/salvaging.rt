// What can be saved of a page with ruined blocks: the messages of the other blocks, as they would be read, and in the place of a ruined
// block's message its bits as they stand in the page, or ones.
//
// A block's outcome depends on its own bits alone, and a block of ones is never ruined (document 02, E1). So the page is read with ones
// in place of every ruined block, and then the messages of these are put. That the counts of the other blocks are as they were is looked
// at once more.
use crate::reading;
use read_totals::Run;
use replies::Refusal;

// Puts the messages of the blocks that are not ruined to the front of metadata and data, and says whether they have the same counts as before.
fn put_others(
    run: Run<'_>,
    page: &[u8],
    metadata: &mut [u8],
    data: &mut [u8],
    counts: &[u8],
) -> Result<bool, Refusal> {
    let mut work = text::buffer::<65536>();
    let work = text::front_mut(&mut work, page.len());
    salvage::covered(run.plan, page, work, counts);
    let mut again = [0u8; 256];
    let again = text::front_mut(&mut again, counts.len());
    reading::look(run, work, again)?;
    reading::take(run, work, metadata, data)?;
    Ok(salvage::are_same(counts, again))
}

// Puts what can be saved of a page with these counts to the front of metadata and data, and says whether that is done.
pub fn salvage(
    run: Run<'_>,
    page: &[u8],
    metadata: &mut [u8],
    data: &mut [u8],
    counts: &[u8],
) -> bool {
    let done = put_others(run, page, metadata, data, counts).unwrap_or(false);
    if done {
        salvage::put_all(
            run.plan,
            run.raw.then_some(page),
            text::front_mut(metadata, run.plan.metadata as usize),
            text::front_mut(data, run.plan.data as usize),
            counts,
        );
    }
    done
}
