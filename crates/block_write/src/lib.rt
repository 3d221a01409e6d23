// Writes one block of a page: its message, its parity and ones into its pads (document 01, "Layout words"; document 02, E12). All of them go
// into the stream, which leaves the mark out: the mark's bytes stay as they were lent.
//
//   write_block    writes a block at a position of the stream
#![tactic(auto)]

ghost use Rattle.std.specs.Prelude.{◌≡◌, ◌++◌, ◌+◌, ◌<◌, length};
ghost use Rattle.bits.specs.Bits.{bit_of, run, Inside};
ghost use Rattle.mark.specs.Mark.{stream_bit, put, InStream};
ghost use Rattle.layout_plan.specs.Plan.{Summed};
ghost use Rattle.code.specs.Generator.{parity};
ghost use Rattle.division_table.specs.Table.{Table};
ghost use Rattle.block_write.specs.Encoded.{encoded, padded};

use layout_plan::Shape;
use mark::Mark;
use page_runs::divide::parity_in;
use page_runs::write::{copy_in, fill_ones, put_parity};
use remainder::coefficients::parity_bits;

// Puts the parity of a block after its message, which stands at the block's position.
fn write_parity(shape: Shape, table: &[u8], mark: Mark, page: &mut [u8], position: usize)
    requires { Table shape.field shape.level table.now × Summed shape × InStream mark page.old position shape.covered }
    ensures { page.new
        ≡ put mark page.old (position + shape.message)
        (parity shape.field shape.level (run (stream_bit mark page.old) position shape.message)) }
{
    let field = shape.field;
    let level = shape.level as usize;
    if level == 0 {
        return;
    }
    let n = shape.message as usize;
    let degree = parity_bits(field, level);
    let remainder = parity_in(field, level, table, mark, page, position, n);
    put_parity(remainder, degree, mark, page, position + n);
}

// Writes the covered bits of a block at a position: the message that starts at position `at` of the payload, and its parity.
fn write_covered(
    shape: Shape,
    table: &[u8],
    metadata: &[u8],
    data: &[u8],
    at: usize,
    mark: Mark,
    page: &mut [u8],
    position: usize,
)
    requires { Table shape.field shape.level table.now × Summed shape × (length metadata.now < 256)
        × Inside (metadata.now ++ «data».now) at shape.message × InStream mark page.old position shape.covered }
    ensures { page.new
        ≡ put mark page.old position
        (encoded shape (run (bit_of (metadata.now ++ «data».now)) at shape.message)) }
{
    let n = shape.message as usize;
    copy_in(metadata, data, at, mark, page, position, n);
    write_parity(shape, table, mark, page, position);
}

// Writes a block at a position, and ones into its pads.
pub fn write_block(
    shape: Shape,
    table: &[u8],
    metadata: &[u8],
    data: &[u8],
    at: usize,
    mark: Mark,
    page: &mut [u8],
    position: usize,
)
    requires { Table shape.field shape.level table.now × Summed shape × (length metadata.now < 256)
        × Inside (metadata.now ++ «data».now) at shape.message × InStream mark page.old position (shape.covered + shape.pads) }
    ensures { page.new
        ≡ put mark page.old position
        (padded shape (run (bit_of (metadata.now ++ «data».now)) at shape.message)) }
{
    write_covered(shape, table, metadata, data, at, mark, page, position);
    let pads = shape.pads as usize;
    if pads == 0 {
        return;
    }
    fill_ones(mark, page, position + shape.covered as usize, pads);
}
