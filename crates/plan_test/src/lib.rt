// Whether the numbers that are kept in a plan hold together (document 02, E8).
//
//   holds_together     compares them with each other
//
// Code that is handed a plan inside a larger value cannot know who made it: a type cannot say what its numbers have to do with each other.
// This test says it, for plans of layout words, in a time that does not depend on the plan. Nothing is worked out that a call uses
// afterwards. specs/Together.antt has the comparisons; proofs/Together.antt shows that a plan that passes has all that the page calls
// count on, and that the plan of an accepted layout passes.
#![tactic(auto)]

ghost use Rattle.std.specs.Prelude.{◌≡◌, true, ◌+◌, ◌*◌, ◌<◌};
ghost use Rattle.page_plan.specs.Plans.{Planned};
ghost use Rattle.plan_test.specs.Together.{counted, shaped, filled, placed, summed, holds_together};

use layout_plan::{Plan, Shape, page_room};

// Whether block 0 alone has the first shape, and there are no more blocks and no more metadata than a record can say. Page
// and data are as small as their types say.
fn counted(plan: Plan) -> bool
    ensures eq { result ≡ counted plan }
    ensures small { (plan.size < 65536) × (plan.«data» < 4294967296) }
{
    if plan.firsts != 1 {
        return false;
    }
    if 256 < plan.blocks {
        return false;
    }
    plan.metadata < 256
}

// Whether a shape is one of layout words, with the covered bits that belong to it.
fn shaped(shape: Shape) -> bool
    ensures { result ≡ shaped shape }
{
    let field = shape.field;
    let level = shape.level;
    if level % 2 != 0 {
        return false;
    }
    if 62 < level {
        return false;
    }
    if shape.pads != 0 {
        return false;
    }
    let covered = shape.covered as u64;
    let parity = field.degree() as u64 * level as u64;
    let both = shape.message as u64 + parity;
    if covered != both {
        return false;
    }
    if level == 0 {
        return true;
    }
    let longest = field.longest() as u64;
    covered <= longest
}

// Whether no message is empty.
fn filled(plan: Plan) -> bool
    ensures { result ≡ filled plan }
{
    let first = plan.first.message;
    if first == 0 {
        return false;
    }
    if plan.blocks <= 1 {
        return true;
    }
    let later = plan.later.message;
    0 < later
}

// Whether the mark lies in the page and the blocks fit beside it.
fn placed(plan: Plan) -> bool
    ensures { result ≡ placed plan }
{
    let mark = plan.mark;
    let end = mark.offset as u64 + mark.length as u64;
    let size = plan.size as u64;
    if size < end {
        return false;
    }
    let used = plan.used as u64;
    let room = page_room(plan);
    used <= room
}

// A number of block 0 and n times that of a later block.
fn sum(first: u32, n: u16, later: u32) -> u64
    ensures { result ≡ first + n * later }
{
    first as u64 + n as u64 * later as u64
}

// Whether used bits and payload are the sums over the blocks.
fn summed(plan: Plan) -> bool
    ensures { result ≡ summed plan }
{
    let blocks = plan.blocks;
    if blocks == 0 {
        return false;
    }
    let laters = blocks - 1;
    let first = plan.first;
    let later = plan.later;
    let covered = sum(first.covered, laters, later.covered);
    let used = plan.used as u64;
    if used != covered {
        return false;
    }
    let messages = sum(first.message, laters, later.message);
    let payload = 8 * (plan.metadata as u64 + plan.data as u64);
    messages == payload
}

// Whether the numbers of a plan hold together. If they do, the page calls can work with it.
pub fn holds_together(plan: Plan) -> bool
    ensures eq { result ≡ holds_together plan }
    ensures planned { result ≡ true → Planned plan }
{
    if !counted(plan) {
        return false;
    }
    let first = plan.first;
    if !shaped(first) {
        return false;
    }
    let later = plan.later;
    if !shaped(later) {
        return false;
    }
    if !filled(plan) {
        return false;
    }
    if !placed(plan) {
        return false;
    }
    summed(plan)
}
