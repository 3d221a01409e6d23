// The remainders of the blocks of a page, up to the next that is not zero.
ghost use Rattle.std.specs.Prelude.{◌≡◌, false, ◌+◌, ◌≤◌, ◌<◌, length};
ghost use Rattle.layout_plan.specs.Plan.{field, level};
ghost use Rattle.code.specs.Register.{register};
ghost use Rattle.division_table.specs.Table.{Table};
ghost use Rattle.page_plan.specs.Plans.{Ready};
ghost use Rattle.page_decide.specs.Scanning.{remainder_at, Reached, Scanned};

use crate::Scan;
use division_table::make_table;
use layout_plan::{Plan, block_covered, block_shape, block_start};
use page_plan::{later_table, same_generator};
use page_runs::divide::{remainder_in, two_remainders_in};
use remainder::Register;
use remainder::coefficients::{is_zero, zero};

// The remainder of a block by the table of its generator. At t = 0 no bit is looked at.
pub fn block_remainder(plan: Plan, page: &[u8], table: &[u8], block: u16) -> Register
    requires ready { Ready plan page.now }
    requires block_lt_blocks { (block < plan.blocks) × (Table (field plan block) (level plan block) table.now) }
    ensures { register result.words ≡ remainder_at plan page.now block }
{
    let shape = block_shape(plan, block);
    let f = shape.field;
    let t = shape.level as usize;
    if t == 0 {
        return zero();
    }
    let mark = plan.mark;
    let start = block_start(plan, block);
    let n = block_covered(plan, block);
    remainder_in(f, t, table, mark, page, start, n)
}

// A block with this remainder; that of the next one is not known.
fn scan_of(block: u16, remainder: Register) -> Scan
    ensures { (result.block ≡ block) × (result.remainder ≡ remainder) × (result.known ≡ false) }
{
    Scan {
        block: block,
        remainder: remainder,
        known: false,
        next: remainder,
    }
}

// A block by itself.
fn scan_one(plan: Plan, page: &[u8], table: &[u8], block: u16) -> Scan
    requires ready { Ready plan page.now }
    requires block_lt_blocks { (block < plan.blocks) × (Table (field plan block) (level plan block) table.now) }
    ensures { (result.block ≡ block) × Reached plan page.now result }
{
    let remainder = block_remainder(plan, page, table, block);
    scan_of(block, remainder)
}

// A block and the next, whose generators are the same, side by side where they have the same length.
fn scan_two(plan: Plan, page: &[u8], table: &[u8], block: u16) -> Scan
    requires ready { Ready plan page.now }
    requires block_bound { (block + 1 < plan.blocks) × (Table (field plan block) (level plan block) table.now) }
    requires block_value { (field plan (block + 1) ≡ field plan block) × (level plan (block + 1) ≡ level plan block) }
    ensures { (result.block ≡ block) × Reached plan page.now result }
{
    let shape = block_shape(plan, block);
    let f = shape.field;
    let t = shape.level as usize;
    let n = block_covered(plan, block);
    let m = block_covered(plan, block + 1);
    if t == 0 {
        return scan_one(plan, page, table, block);
    }
    if n != m {
        return scan_one(plan, page, table, block);
    }
    let mark = plan.mark;
    let start = block_start(plan, block);
    let end = block_start(plan, block + 1);
    let pair = two_remainders_in(f, t, table, mark, page, start, end, n);
    let remainder = pair.first;
    let next = pair.second;
    Scan {
        block: block,
        remainder: remainder,
        known: true,
        next: next,
    }
}

// The block after another; `table` is that of the later blocks' generator.
fn scan_after(plan: Plan, page: &[u8], table: &[u8], scan: Scan) -> Scan
    requires ready { (Ready plan page.now) × (Reached plan page.now scan) }
    requires block_lt_blocks { (scan.block < plan.blocks) × (Table plan.later.field plan.later.level table.now) }
    ensures { (result.block ≡ scan.block + 1) × Reached plan page.now result }
{
    let b = scan.block + 1;
    if b == plan.blocks {
        return scan_of(b, zero());
    }
    let known = scan.known;
    if known {
        let next = scan.next;
        return scan_of(b, next);
    }
    if b + 1 == plan.blocks {
        return scan_one(plan, page, table, b);
    }
    scan_two(plan, page, table, b)
}

// The first damaged block after another; `table` is that of the later blocks' generator.
pub fn next_damaged(plan: Plan, page: &[u8], table: &[u8], scan: Scan) -> Scan
    requires ready { (Ready plan page.now) × (Reached plan page.now scan) }
    requires block_lt_blocks { (scan.block < plan.blocks) × (Table plan.later.field plan.later.level table.now) }
    ensures { Scanned plan page.now (scan.block + 1) result }
{
    let blocks = plan.blocks;
    let mut at = scan_after(plan, page, table, scan);
    while at.block < blocks {
        let remainder = at.remainder;
        let clean = is_zero(remainder);
        if !clean {
            return at;
        }
        at = scan_after(plan, page, table, at);
    }
    at
}

// The first damaged block of a page whose block 0 is this; `table` is that of the later blocks' generator.
fn first_damaged(plan: Plan, page: &[u8], scan: Scan, table: &[u8]) -> Scan
    requires ready { (Ready plan page.now) × (Reached plan page.now scan) }
    requires block_value { (scan.block ≡ 0) × (Table plan.later.field plan.later.level table.now) }
    ensures { Scanned plan page.now 0 result }
{
    let remainder = scan.remainder;
    let clean = is_zero(remainder);
    if !clean {
        return scan;
    }
    next_damaged(plan, page, table, scan)
}

// Block 0, with block 1 where that has the same generator; `table` is that of block 0.
fn scan_first(plan: Plan, page: &[u8], table: &[u8]) -> Scan
    requires { (Ready plan page.now) × (Table plan.first.field plan.first.level table.now) }
    ensures { (result.block ≡ 0) × Reached plan page.now result }
{
    let blocks = plan.blocks;
    if blocks == 1 {
        return scan_one(plan, page, table, 0);
    }
    let first = plan.first;
    let later = plan.later;
    if same_generator(first, later) {
        return scan_two(plan, page, table, 0);
    }
    scan_one(plan, page, table, 0)
}

// The first damaged block of a page. Two tables are made in the same place, one after the other: that of block 0, by which its
// remainder is worked out, and that of the later blocks, which is left there.
pub fn scan_page(plan: Plan, page: &[u8], table: &mut [u8]) -> Scan
    requires { (Ready plan page.now) × (36864 ≤ length table.old) }
    ensures scan { Scanned plan page.now 0 result }
    ensures table { Table plan.later.field plan.later.level table.new }
{
    let first = plan.first;
    let f = first.field;
    let t = first.level as usize;
    make_table(f, t, table);
    let scan = scan_first(plan, page, table);
    later_table(plan, table);
    first_damaged(plan, page, scan, table)
}
