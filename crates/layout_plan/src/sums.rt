// The plan of a page: what the layout words come to. Every sum over layout words is worked out here, once, and kept.
ghost use Rattle.std.specs.Prelude.{◌≡◌, ◌+◌, ◌*◌, ◌≤◌, ◌<◌};
ghost use Rattle.layout_plan.specs.Plan.{shape_of, later_shape, data_bytes, layout_for, plan_of, room, shape, covered, start};

use crate::{BlockFields, Fields, Layout, Plan, Shape};
use field::Field;

// The shape of a block with so many bytes of metadata: its parity is m times t bits.
fn shape_of(metadata: u8, fields: BlockFields) -> Shape
    ensures eq { result ≡ shape_of metadata fields }
    ensures small { result.covered < 16777216 }
{
    let field = fields.gf;
    let message = 8 * (metadata as u32 + 4 * fields.units as u32);
    let level = 2 * fields.ecc as u16;
    let parity = field.degree() * level as u32;
    Shape {
        message: message,
        covered: message + parity,
        pads: 0,
        field: field,
        level: level,
    }
}

// The shape of a later block; of no bits where there is none.
fn later_shape(fields: Fields) -> Shape
    ensures eq { result ≡ later_shape fields }
    ensures small { result.covered < 16777216 }
{
    if fields.nblocks == 0 {
        return Shape {
            message: 0,
            covered: 0,
            pads: 0,
            field: Field::Thirteen,
            level: 0,
        };
    }
    let later = fields.later;
    shape_of(0, later)
}

// Bytes of data in a page.
fn data_bytes(fields: Fields) -> u32
    ensures { result ≡ data_bytes fields }
{
    let units = fields.first.units as u32;
    let more = fields.later.units as u32;
    4 * (units + fields.nblocks as u32 * more)
}

// The layout of the fields, accepted or not. This is the one place where a layout is made.
pub fn layout_for(fields: Fields) -> Layout
    ensures { result ≡ layout_for fields }
{
    let fields_first = fields.first;
    let first = shape_of(fields.metadata, fields_first);
    let later = later_shape(fields);
    let data = data_bytes(fields);
    let length_first = first.covered;
    let length_later = later.covered;
    let used = length_first + fields.nblocks as u32 * length_later;
    let blocks = fields.nblocks as u16 + 1;
    let metadata = fields.metadata as u32;
    let mark = fields.mark;
    let plan = Plan {
        blocks: blocks,
        firsts: 1,
        size: fields.page,
        metadata: metadata,
        data: data,
        used: used,
        first: first,
        later: later,
        mark: mark,
    };
    Layout { plan: plan }
}

// Bits of the page without the mark.
pub fn page_room(plan: Plan) -> u64
    ensures { result ≡ room plan }
{
    let size = plan.size as u64;
    let mark = plan.mark.length as u64;
    if size < mark {
        return 0;
    }
    8 * (size - mark)
}

// The plan of a layout.
pub fn plan_of(layout: Layout) -> Plan
    ensures { result ≡ plan_of layout }
{
    layout.plan
}

// The shape of a block.
pub fn block_shape(plan: Plan, block: u16) -> Shape
    ensures { result ≡ shape plan block }
{
    if block < plan.firsts {
        return plan.first;
    }
    plan.later
}

// The covered bits of a block.
pub fn block_covered(plan: Plan, block: u16) -> usize
    ensures eq { result ≡ covered plan block }
    ensures small { result < 4294967296 }
{
    let shape = block_shape(plan, block);
    shape.covered as usize
}

// The bits from a block's start to the next block's.
pub fn pitch(shape: Shape) -> usize
    ensures eq { result ≡ shape.covered + shape.pads }
    ensures small { result < 4294967552 }
{
    shape.covered as usize + shape.pads as usize
}

// The bits from the start of one of n blocks of a shape to the start of the block after them.
fn together(n: u16, shape: Shape) -> usize
    ensures eq { result ≡ n * (shape.covered + shape.pads) }
    ensures small { result < 562949953421312 }
{
    n as usize * pitch(shape)
}

// The stream position at which a block starts; that of the block after the last is the number of used bits.
pub fn block_start(plan: Plan, block: u16) -> usize
    ensures eq { result ≡ start plan block }
    ensures small { result < 1125899906842624 }
{
    let firsts = plan.firsts;
    let first = plan.first;
    if block <= firsts {
        return together(block, first);
    }
    let later = plan.later;
    together(firsts, first) + together(block - firsts, later)
}
