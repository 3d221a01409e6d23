// What becomes of one block, by its remainder (document 01, "Replies"; document 02, E1).
//
//   block_outcome    the exponents that repair a block, or that there are none
//   block_count      its count: how many exponents, 128 plus the zeros of an erased block, 255 of a ruined one
#![tactic(auto)]

ghost use Rattle.std.specs.Prelude.{◌≡◌, ◌+◌, ◌*◌, ◌^◌, ◌≤◌, ◌<◌};
ghost use Rattle.bits.specs.Bits.{run};
ghost use Rattle.mark.specs.Mark.{InStream, stream_bit};
ghost use Rattle.field.specs.Field.{degree};
ghost use Rattle.layout_plan.specs.Plan.{field, level, covered};
ghost use Rattle.code.specs.Word.{zeros_to};
ghost use Rattle.code.specs.Register.{register};
ghost use Rattle.syndrome_lanes.specs.Lanes.{Decoding};
ghost use Rattle.decoder.specs.Locating.{Finds};
ghost use Rattle.page_theory.specs.Page.{block_word};
ghost use Rattle.page_plan.specs.Plans.{Planned, Ready};
ghost use Rattle.block_outcome.specs.Counts.{erased_at, count_at};

use decoder::{Found, find_errors};
use layout_plan::{Plan, block_covered, block_shape, block_start};
use page_runs::read::zeros_in;
use remainder::Register;

// What becomes of a block with this remainder: the exponents that repair it, or that there are none.
pub fn block_outcome(
    plan: Plan,
    block: u16,
    remainder: Register,
    powers: &[u16; 16384],
    logs: &[u16; 16384],
    rows: &[u16; 2048],
) -> Found
    requires planned { (Planned plan) × (block < plan.blocks) × (Decoding (field plan block) (level plan block) powers.now logs.now rows.now) }
    requires words_bound { register remainder.words < 2 ^ (degree (field plan block) * level plan block) }
    ensures { Finds (field plan block) (level plan block) (covered plan block) (register remainder.words) result }
{
    let shape = block_shape(plan, block);
    let f = shape.field;
    let t = shape.level as usize;
    let n = block_covered(plan, block);
    find_errors(f, powers, logs, rows, remainder, t, n)
}

// The flip count of a block that can be repaired. Every exponent is a flip, in the message or in the parity.
fn flip_count(found: Found) -> u8
    requires { found.count ≤ 62 }
    ensures { result ≡ found.count }
{
    let count = found.count;
    count as u8
}

// The zeros of n bits of a page's stream, counted no further than a limit.
fn run_zeros(plan: Plan, page: &[u8], start: usize, n: usize, limit: usize) -> usize
    requires { InStream plan.mark page.now start n }
    ensures { result ≡ zeros_to limit (run (stream_bit plan.mark page.now) start n) }
{
    let mark = plan.mark;
    zeros_in(mark, page, start, n, limit)
}

// The zeros of a block, counted no further than a limit.
fn block_zeros(plan: Plan, page: &[u8], block: u16, limit: usize) -> usize
    requires { (Ready plan page.now) × (block < plan.blocks) }
    ensures { result ≡ zeros_to limit (block_word plan page.now block) }
{
    let start = block_start(plan, block);
    let n = block_covered(plan, block);
    run_zeros(plan, page, start, n, limit)
}

// The count of a block of the level t with no codeword near, by its zeros.
fn count_of_zeros(zeros: usize, t: usize) -> u8
    requires { t ≤ 62 }
    ensures { (zeros ≤ t → result ≡ 128 + zeros) × (t < zeros → result ≡ 255) }
{
    if zeros <= t { 128 + zeros as u8 } else { 255 }
}

// The count of a block with no codeword near: 128 plus its zeros where it is erased, 255 where it is ruined.
fn erased_count(plan: Plan, page: &[u8], block: u16) -> u8
    requires { (Ready plan page.now) × (block < plan.blocks) }
    ensures { result ≡ erased_at plan page.now block }
{
    let shape = block_shape(plan, block);
    let t = shape.level as usize;
    let zeros = block_zeros(plan, page, block, t + 1);
    count_of_zeros(zeros, t)
}

// The count of a block for whose remainder this was found.
pub fn block_count(plan: Plan, page: &[u8], block: u16, found: Found) -> u8
    requires { (Ready plan page.now) × (block < plan.blocks) × (found.count ≤ 62) }
    ensures { result ≡ count_at plan page.now block found }
{
    let located = found.located;
    if !located {
        return erased_count(plan, page, block);
    }
    flip_count(found)
}
