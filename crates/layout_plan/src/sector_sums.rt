// The plan of a page of sectors (document 02, E12). Its sums are worked out here, once, and kept.
ghost use Rattle.std.specs.Prelude.{◌≡◌, ◌*◌, ◌≤◌, ◌<◌};
ghost use Rattle.field.specs.Field.{degree};
ghost use Rattle.layout_plan.specs.SectorPlan.{missing, sector_shape, sectors_plan, sector_layout};

use crate::choice::field_of;
use crate::{Layout, Plan, Sectors, Shape};
use field::Field;
use mark::Mark;

// How much a number lacks to the next multiple of 8.
fn missing(n: u32) -> u32
    ensures eq { result ≡ missing n }
    ensures small { result < 8 }
{
    (8 - n % 8) % 8
}

// The parity bits of a block.
fn parity_bits(field: Field, level: u16) -> u32
    requires { level ≤ 62 }
    ensures eq { result ≡ degree field * level }
    ensures small { result ≤ 868 }
{
    field.degree() * level as u32
}

// The shape of a sector of so many bytes of data: parity padded to a byte, and the whole to 8 bytes.
fn sector_shape(size: u16, field: Field, level: u16) -> Shape
    requires { level ≤ 62 }
    ensures eq { result ≡ sector_shape size field level }
    ensures small { (result.covered < 1048576) × (result.pads < 64) }
{
    let parity = parity_bits(field, level);
    let ones = missing(parity);
    let bytes = size as u32 + (parity + ones) / 8;
    let pads = ones + 8 * missing(bytes);
    let message = 8 * size as u32;
    Shape {
        message: message,
        covered: message + parity,
        pads: pads as u8,
        field: field,
        level: level,
    }
}

// The plan of the sectors, of which the first `firsts` have the shape `first`, and the last one the shape `later`.
fn sectors_plan(sectors: Sectors, firsts: u16, first: Shape, later: Shape) -> Plan
    requires { (0 < sectors.count) × (sectors.count ≤ 16) × (first.covered < 1048576) × (later.covered < 1048576) }
    ensures { result ≡ sectors_plan sectors firsts first later }
{
    let others = sectors.count as u32 - 1;
    let data = others * sectors.size as u32 + sectors.last as u32;
    let pitch_first = first.covered + first.pads as u32;
    let pitch_later = later.covered + later.pads as u32;
    Plan {
        blocks: sectors.count,
        firsts: firsts,
        size: sectors.page,
        metadata: 0,
        data: data,
        used: others * pitch_first + pitch_later,
        first: first,
        later: later,
        mark: Mark {
            offset: 0,
            length: 0,
        },
    }
}

// The layout of the numbers, accepted or not.
pub fn sectors_layout(sectors: Sectors) -> Layout
    requires { (0 < sectors.count) × (sectors.count ≤ 16) × (sectors.level ≤ 31) × (sectors.choice ≤ 1) }
    ensures { result ≡ sector_layout sectors }
{
    let field = field_of(sectors.choice as u8);
    let level = 2 * sectors.level;
    let last = sector_shape(sectors.last, field, level);
    if sectors.count == 1 {
        let plan = sectors_plan(sectors, 1, last, last);
        return Layout { plan: plan };
    }
    let own = sector_shape(sectors.size, field, level);
    let plan = sectors_plan(sectors, sectors.count - 1, own, last);
    Layout { plan: plan }
}
