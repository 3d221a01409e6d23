// The rules that a layout must keep (document 01, replies 1 to 4; document 02, E7, reply 11), and the first one that it breaks.
ghost use Rattle.std.specs.Prelude.{◌≡◌};
ghost use Rattle.layout.specs.Acceptance.{test, of_blocks, level_rule, message_rule, length_rule, mark_rule, room_rule, finding_of};
ghost use Rattle.layout.specs.declared.Kind.TheVariants.{First, Later};

use crate::{Kind, Reason, Rule};
use layout_plan::{BlockFields, Fields, Plan, Shape, page_room};
use replies::highest;

// The finding of one rule.
pub fn test(broken: bool, reason: Reason) -> Result<(), Reason>
    ensures { result ≡ test broken reason }
{
    if broken {
        return Err(reason);
    }
    Ok(())
}

// Reply 1, a level field above the highest of the edition.
#[tactic(auto, unfolding(crate::specs::Acceptance::level_rule))]
pub fn level_rule(edition: u64, kind: Kind, fields: BlockFields) -> Result<(), Reason>
    ensures { result ≡ level_rule edition kind fields }
{
    let found = fields.ecc as u64;
    let limit = highest(edition);
    test(
        limit < found,
        Reason {
            rule: Rule::Level,
            kind: kind,
            found: found,
            limit: limit,
        },
    )
}

// Reply 2, an empty message.
#[tactic(auto, unfolding(crate::specs::Acceptance::message_rule))]
pub fn message_rule(kind: Kind, shape: Shape) -> Result<(), Reason>
    ensures { result ≡ message_rule kind shape }
{
    let found = shape.message as u64;
    test(
        found < 1,
        Reason {
            rule: Rule::Message,
            kind: kind,
            found: found,
            limit: 1,
        },
    )
}

// Reply 3, a block with t > 0 longer than 2^m - 1 bits.
pub fn length_rule(kind: Kind, shape: Shape) -> Result<(), Reason>
    ensures { result ≡ length_rule kind shape }
{
    if shape.level == 0 {
        return Ok(());
    }
    let field = shape.field;
    let found = shape.covered as u64;
    let limit = field.longest() as u64;
    test(
        limit < found,
        Reason {
            rule: Rule::Length,
            kind: kind,
            found: found,
            limit: limit,
        },
    )
}

// Reply 11, a mark beyond the page, or bits after it that are not zero.
pub fn mark_rule(fields: Fields) -> Result<(), Reason>
    ensures { result ≡ mark_rule fields }
{
    let mark = fields.mark;
    let end = mark.offset as u64 + mark.length as u64;
    let page = fields.page as u64;
    let zeros = fields.zeros as u64;
    if page < end {
        return Err(Reason {
            rule: Rule::Outside,
            kind: Kind::Page,
            found: end,
            limit: page,
        });
    }
    test(
        0 < zeros,
        Reason {
            rule: Rule::Outside,
            kind: Kind::Page,
            found: zeros,
            limit: 0,
        },
    )
}

// Reply 4, blocks that need more bits than the page has beside the mark.
#[tactic(auto, unfolding(crate::specs::Acceptance::room_rule))]
pub fn room_rule(plan: Plan) -> Result<(), Reason>
    ensures { result ≡ room_rule plan }
{
    let found = plan.used as u64;
    let limit = page_room(plan);
    test(
        limit < found,
        Reason {
            rule: Rule::Room,
            kind: Kind::Page,
            found: found,
            limit: limit,
        },
    )
}

// Reply 1, of block 0 and then of the later blocks, where there are some.
#[tactic(auto, unfolding(crate::specs::Acceptance::of_blocks, crate::specs::Acceptance::either))]
fn levels(fields: Fields) -> Result<(), Reason>
    ensures { result ≡ of_blocks fields.nblocks
        (level_rule fields.edition First fields.first) (level_rule fields.edition Later fields.later) }
{
    let fields_first = fields.first;
    let fields_later = fields.later;
    let edition = fields.edition;
    level_rule(edition, Kind::First, fields_first)?;
    if fields.nblocks == 0 {
        return Ok(());
    }
    level_rule(edition, Kind::Later, fields_later)
}

// Reply 2, the same way.
#[tactic(auto, unfolding(crate::specs::Acceptance::of_blocks, crate::specs::Acceptance::either))]
fn messages(nblocks: u8, first: Shape, later: Shape) -> Result<(), Reason>
    ensures { result ≡ of_blocks nblocks (message_rule First first) (message_rule Later later) }
{
    message_rule(Kind::First, first)?;
    if nblocks == 0 {
        return Ok(());
    }
    message_rule(Kind::Later, later)
}

// Reply 3, the same way.
#[tactic(auto, unfolding(crate::specs::Acceptance::of_blocks, crate::specs::Acceptance::either))]
fn lengths(nblocks: u8, first: Shape, later: Shape) -> Result<(), Reason>
    ensures { result ≡ of_blocks nblocks (length_rule First first) (length_rule Later later) }
{
    length_rule(Kind::First, first)?;
    if nblocks == 0 {
        return Ok(());
    }
    length_rule(Kind::Later, later)
}

// The first broken rule of a layout, by its fields and its plan.
#[tactic(auto, unfolding(crate::specs::Acceptance::finding_of, crate::specs::Acceptance::either))]
pub fn finding_of(fields: Fields, plan: Plan) -> Result<(), Reason>
    ensures { result ≡ finding_of fields plan }
{
    let nblocks = fields.nblocks;
    let first = plan.first;
    let later = plan.later;
    levels(fields)?;
    messages(nblocks, first, later)?;
    lengths(nblocks, first, later)?;
    mark_rule(fields)?;
    room_rule(plan)
}
