// Writing a page: block after block its message, its parity and ones into its pads, then ones into the tail. All of them go into the stream, which leaves the
// mark out: the mark's bytes stay as they were lent.
ghost use Rattle.std.specs.Prelude.{◌≡◌, ◌++◌, ◌-◌, ◌≤◌, ◌<◌, length};
ghost use Rattle.bits.specs.Bits.{bit_of, run, ones};
ghost use Rattle.mark.specs.Mark.{put};
ghost use Rattle.replies.specs.Replies.{verdict_number, verdict_block};
ghost use Rattle.division_table.specs.Table.{Table};
ghost use Rattle.layout_plan.specs.Plan.{shape, bits, start, room, from};
ghost use Rattle.layout_plan.specs.Record.{words_of};
ghost use Rattle.page_theory.specs.Page.{page_of};
ghost use Rattle.page_theory.specs.Calls.{write_ended, write_in, write_for, write_of};
ghost use Rattle.page_plan.specs.Plans.{Planned, Sound};
ghost use Rattle.block_write.specs.Encoded.{padded};
ghost use Rattle.page_write.specs.Writing.{Lent};

use crate::lengths::write_reply;
use block_write::write_block;
use division_table::make_table;
use layout::check_layout;
use layout_plan::{Layout, Plan, block_shape, block_start, plan_of};
use page_plan::{later_table, message_start};
use page_runs::write::fill_ones;
use replies::Refusal;

// Writes block 0, and leaves the table of the later blocks' generator. One table is made after the other in the same place.
fn write_first(plan: Plan, table: &mut [u8], metadata: &[u8], data: &[u8], page: &mut [u8])
    requires { Planned plan × Lent plan metadata.now «data».now page.old × (36864 ≤ length table.old) }
    ensures { (page.new
        ≡ put plan.mark page.old 0 (padded plan.first (run (bit_of (metadata.now ++ «data».now)) 0 plan.first.message)))
        × Table plan.later.field plan.later.level table.new }
{
    let first = plan.first;
    let field = first.field;
    let level = first.level as usize;
    make_table(field, level, table);
    write_block(first, table, metadata, data, 0, plan.mark, page, 0);
    later_table(plan, table);
}

// Writes a later block, by the table of their generator.
fn write_later(plan: Plan, block: u16, table: &[u8], metadata: &[u8], data: &[u8], page: &mut [u8])
    requires planned { Planned plan × Lent plan metadata.now «data».now page.old × Table plan.later.field plan.later.level table.now }
    requires block_nonzero { (0 < block) × (block < plan.blocks) }
    ensures { page.new
        ≡ put plan.mark page.old (start plan block)
        (padded (shape plan block) (run (bit_of (metadata.now ++ «data».now)) (from plan block) (bits plan block))) }
{
    let shape = block_shape(plan, block);
    let position = block_start(plan, block);
    let at = message_start(plan, block);
    write_block(shape, table, metadata, data, at, plan.mark, page, position);
}

// Writes ones into the tail.
fn fill_tail(plan: Plan, page: &mut [u8])
    requires { Planned plan × (length page.old ≡ plan.size) }
    ensures { page.new ≡ put plan.mark page.old plan.used (ones (room plan - plan.used)) }
{
    let mark = plan.mark;
    let used = plan.used as usize;
    let room = 8 * (page.len() - mark.length as usize);
    fill_ones(mark, page, used, room - used);
}

// Writes all blocks and the tail. The mark keeps what was lent.
fn write_blocks(plan: Plan, metadata: &[u8], data: &[u8], page: &mut [u8])
    requires { Planned plan × Lent plan metadata.now «data».now page.old }
    ensures { page.new ≡ page_of plan page.old (metadata.now ++ «data».now) }
{
    let mut table = [0u8; 36864];
    write_first(plan, &mut table, metadata, data, page);
    for block in 1..plan.blocks {
        write_later(plan, block, &table, metadata, data, page);
    }
    fill_tail(plan, page);
}

// Writes a page under the plan of an accepted layout.
pub fn write_in(plan: Plan, metadata: &[u8], data: &[u8], page: &mut [u8]) -> Result<(), Refusal>
    requires { Planned plan }
    ensures { write_ended (verdict_number result) (verdict_block result) page.new
        ≡ write_in plan metadata.now «data».now page.old }
{
    write_reply(plan, metadata.len(), data.len(), page.len())?;
    write_blocks(plan, metadata, data, page);
    Ok(())
}

// Writes a page under the answer to a layout: that of layout words, or of whatever else names it.
pub fn write_for(
    answer: Result<Layout, layout::Refusal>,
    metadata: &[u8],
    data: &[u8],
    page: &mut [u8],
) -> Result<(), Refusal>
    requires { Sound answer }
    ensures { write_ended (verdict_number result) (verdict_block result) page.new
        ≡ write_for answer metadata.now «data».now page.old }
{
    let layout = answer?;
    write_in(plan_of(layout), metadata, data, page)
}

// Writes a page from metadata and data.
pub fn write_page(
    edition: u64,
    words: &[u8],
    metadata: &[u8],
    data: &[u8],
    page: &mut [u8],
) -> Result<(), Refusal>
    ensures { write_ended (verdict_number result) (verdict_block result) page.new
        ≡ write_of (words_of edition words.now) metadata.now «data».now page.old }
{
    write_for(check_layout(edition, words), metadata, data, page)
}
