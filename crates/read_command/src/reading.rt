// The calls of the library that read a page: looking at it, and taking it.
use read_totals::Run;
use replies::Refusal;

// Looks at a page: its counts, which a page with a ruined block has as well, go to the buffer, which has a place for each block.
pub fn look(run: Run<'_>, page: &[u8], counts: &mut [u8]) -> Result<(), Refusal> {
    page_look::look_page(run.edition, &run.record, page, counts)
}

// Takes a page: its metadata and its data go to the first bytes of the buffers, as many as the plan says.
pub fn take(
    run: Run<'_>,
    page: &[u8],
    metadata: &mut [u8],
    data: &mut [u8],
) -> Result<(), Refusal> {
    page_take::take_page(
        run.edition,
        &run.record,
        page,
        text::front_mut(metadata, run.plan.metadata as usize),
        text::front_mut(data, run.plan.data as usize),
    )
}

// Looks at a page and, where its metadata or data is wanted, takes it.
pub fn read(
    run: Run<'_>,
    page: &[u8],
    metadata: &mut [u8],
    data: &mut [u8],
    counts: &mut [u8],
) -> Result<(), Refusal> {
    look(run, page, counts)?;
    if run.wants() {
        take(run, page, metadata, data)?;
    }
    Ok(())
}
