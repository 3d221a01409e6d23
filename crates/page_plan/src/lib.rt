// What the calls that write, read, judge and check pages ask of a plan, and what they have in common under one.
//
//   block_reply      the reply to a page's length and a block number
//   message_start    where the message of a block starts in the payload
//   same_generator   whether two blocks have the same generator
//   later_table      the table of the later blocks' generator, made where that of block 0 stands
//
// specs/Plans.antt says what the plan of an accepted layout has, and proofs/Plans.antt shows it; that is all the code asks of a plan.
#![tactic(auto)]

ghost use Rattle.std.specs.Prelude.{◌≡◌, cond, false, ◌*◌, ◌≤◌, ◌<◌, length, eqb};
ghost use Rattle.replies.specs.Replies.{verdict_number};
ghost use Rattle.field.specs.Field.{degree};
ghost use Rattle.layout_plan.specs.Plan.{from};
ghost use Rattle.division_table.specs.Table.{Table};
ghost use Rattle.page_theory.specs.Calls.{block_reply};
ghost use Rattle.page_plan.specs.Plans.{Planned};

use division_table::make_table;
use layout_plan::{Plan, Shape};
use replies::Refusal;

// What a page's length and a block number are refused for (document 01, "Replies").
pub fn block_reply(plan: Plan, page: usize, block: u64) -> Result<(), Refusal>
    ensures { verdict_number result ≡ block_reply plan page block }
{
    if page != plan.size as usize {
        return Err(Refusal::PageLength);
    }
    if plan.blocks as u64 <= block {
        return Err(Refusal::OutOfRange);
    }
    Ok(())
}

// The bits of n messages of a shape.
fn messages(n: u16, shape: Shape) -> usize
    ensures eq { result ≡ n * shape.message }
    ensures small { result < 281474976710656 }
{
    n as usize * shape.message as usize
}

// Where the message of a block starts in the payload.
// By hand: like `layout_plan::block_start`, but a sum of other numbers of a shape; one function for both would take these as two parameters
// more, and leave the same two lines here and there.
pub fn message_start(plan: Plan, block: u16) -> usize
    ensures eq { result ≡ from plan block }
    ensures small { result < 1125899906842624 }
{
    let firsts = plan.firsts;
    let first = plan.first;
    if block <= firsts {
        return messages(block, first);
    }
    let later = plan.later;
    messages(firsts, first) + messages(block - firsts, later)
}

// Whether two blocks have the same generator: the same field and the same level.
pub fn same_generator(first: Shape, later: Shape) -> bool
    ensures { result ≡ cond (eqb (degree first.field) (degree later.field)) (eqb first.level later.level) false }
{
    let f = first.field;
    let g = later.field;
    let m = f.degree();
    let n = g.degree();
    if m != n {
        return false;
    }
    first.level == later.level
}

// The table of block 0's generator becomes that of the later blocks' one. It is not made again where that is the same.
pub fn later_table(plan: Plan, table: &mut [u8])
    requires { (Planned plan) × (36864 ≤ length table.old) × (Table plan.first.field plan.first.level table.old) }
    ensures { Table plan.later.field plan.later.level table.new }
{
    let first = plan.first;
    let later = plan.later;
    if same_generator(first, later) {
        return;
    }
    let f = later.field;
    let t = later.level as usize;
    make_table(f, t, table);
}
