// Whether a layout of sectors is accepted.
ghost use Rattle.std.specs.Prelude.{◌≡◌, ◌≤◌, ◌<◌};
ghost use Rattle.sectors.specs.Sectors.{in_count, sector_fields, sector_found, sector_acceptance};

use layout::rules::finding_of;
use layout::{Kind, Reason, Refusal, Rule};
use layout_plan::{BlockFields, Fields, Layout, Sectors, field_of, plan_of, sectors_layout};
use mark::Mark;
use replies::{highest, offered};

// Whether a page may have so many sectors.
fn in_count(count: u16) -> bool
    ensures { result ≡ in_count count }
{
    if count == 0 {
        return false;
    }
    count <= 16
}

// The fields that the rules of a layout look at.
fn sector_fields(sectors: Sectors) -> Fields
    requires { (0 < sectors.count) × (sectors.count ≤ 16) × (sectors.level ≤ 31) × (sectors.choice ≤ 1) }
    ensures { result ≡ sector_fields sectors }
{
    let field = field_of(sectors.choice as u8);
    let fields = BlockFields {
        ecc: sectors.level as u8,
        gf: field,
        units: 0,
    };
    Fields {
        nblocks: sectors.count as u8 - 1,
        metadata: 0,
        first: fields,
        page: sectors.page,
        later: fields,
        mark: Mark {
            offset: 0,
            length: 0,
        },
        zeros: 0,
        edition: sectors.edition,
    }
}

// The answer where the level field is one of the edition's.
fn check_plan(sectors: Sectors) -> Result<Layout, Refusal>
    requires { (0 < sectors.count) × (sectors.count ≤ 16) × (sectors.level ≤ 31) × (sectors.choice ≤ 1) }
    ensures { result ≡ sector_found sectors }
{
    let layout = sectors_layout(sectors);
    finding_of(sector_fields(sectors), plan_of(layout))?;
    Ok(layout)
}

// Is this layout of sectors acceptable?
pub fn check_sectors(sectors: Sectors) -> Result<Layout, Refusal>
    ensures { result ≡ sector_acceptance sectors }
{
    if !in_count(sectors.count) {
        return Err(Refusal::Range);
    }
    if 1 < sectors.choice {
        return Err(Refusal::Range);
    }
    if !offered(sectors.edition) {
        return Err(Refusal::Edition);
    }
    let found = sectors.level as u64;
    let limit = highest(sectors.edition);
    if limit < found {
        return Err(Refusal::Rule(Reason {
            rule: Rule::Level,
            kind: Kind::First,
            found: found,
            limit: limit,
        }));
    }
    check_plan(sectors)
}
