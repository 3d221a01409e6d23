// The counts of the blocks of a page (document 02, E6): the number of flips, or 128 plus the zeros of an erased block, or 255 of a ruined one.
//
//   clear            a count of 0 for each block
//   count_damaged    the counts of the damaged blocks, each decided once; a ruined one too, and the blocks after it all the same
//   first_ruined     the first block with the count of a ruined one
#![tactic(auto)]

ghost use Rattle.std.specs.Prelude.{◌≡◌, ◌<◌, length, replicate, IfSome, IfNone};
ghost use Rattle.page_theory.specs.Reading as reading;
ghost use Rattle.page_decide.specs.Deciding.{OneField, Serves};
ghost use Rattle.page_counts.specs.Looking.{Pending, FirstRuined};

use layout_plan::Plan;
use page_decide::Scan;
use page_decide::damaged::next_damaged;
use page_decide::decide::{apart, decide_alone, decide_block, fill_serving, nothing};

// Writes a count of 0 for each block.
pub fn clear(counts: &mut [u8])
    ensures { counts.new ≡ replicate (length counts.old) 0 }
{
    counts.fill(0);
}

// Counts the damaged blocks from `scan` on with tables that serve them. `table` is that of the later
// blocks' generator.
fn count_from(
    plan: Plan,
    page: &[u8],
    scan: Scan,
    table: &[u8],
    powers: &[u16; 16384],
    logs: &[u16; 16384],
    rows: &[u16; 2048],
    counts: &mut [u8],
)
    requires pending { Pending plan page.now table.now scan counts.old }
    requires serves { Serves plan scan.block powers.now logs.now rows.now }
    ensures { counts.new ≡ reading.counts plan page.now }
{
    let blocks = plan.blocks;
    let mut at = scan;
    let mut last = nothing();
    while at.block < blocks {
        let b = at.block;
        last = decide_block(plan, page, at, last, powers, logs, rows);
        let n = last.count;
        let i = b as usize;
        counts[i] = n;
        at = next_damaged(plan, page, table, at);
    }
}

// Counts the damaged blocks from `scan` on, which all have the field of the later blocks. The tables are here, since only a damaged
// page needs them.
fn count_alike(plan: Plan, page: &[u8], scan: Scan, table: &[u8], counts: &mut [u8])
    requires pending { Pending plan page.now table.now scan counts.old }
    requires one_field { OneField plan scan.block }
    ensures { counts.new ≡ reading.counts plan page.now }
{
    let mut powers = [0u16; 16384];
    let mut logs = [0u16; 16384];
    let mut rows = [0u16; 2048];
    fill_serving(plan, &mut powers, &mut logs, &mut rows);
    count_from(plan, page, scan, table, &powers, &logs, &rows, counts);
}

// Counts the damaged blocks of a page, of which `scan` is the first. Block 0 is decided alone where it has another field than the
// later ones.
pub fn count_damaged(plan: Plan, page: &[u8], scan: Scan, table: &[u8], counts: &mut [u8])
    requires pending { Pending plan page.now table.now scan counts.old }
    requires block_lt_blocks { scan.block < plan.blocks }
    ensures { counts.new ≡ reading.counts plan page.now }
{
    let own = apart(plan, scan);
    if !own {
        count_alike(plan, page, scan, table, counts);
        return;
    }
    let decided = decide_alone(plan, page, scan);
    let n = decided.count;
    counts[0] = n;
    let next = next_damaged(plan, page, table, scan);
    let block = next.block;
    if block == plan.blocks {
        return;
    }
    count_alike(plan, page, next, table, counts);
}

// The first block with the count of a ruined one, if there is one.
pub fn first_ruined(counts: &[u8]) -> Option<usize>
    ensures found { IfSome result (λ b. (b < length counts.now) × FirstRuined counts.now b) }
    ensures none { IfNone result (FirstRuined counts.now (length counts.now)) }
{
    for b in 0..counts.len() {
        if counts[b] == 255 {
            return Some(b);
        }
    }
    None
}
