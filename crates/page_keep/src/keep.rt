// Deciding damaged blocks and keeping what repairs them.
ghost use Rattle.std.specs.Prelude.{◌≡◌, true, false, ◌+◌, ◌*◌, ◌≤◌, ◌<◌, length};
ghost use Rattle.page_decide.specs.Deciding.{OneField, Serves};
ghost use Rattle.page_keep.specs.Keeping.{KeptFor, BlockKept, Pending, PageDecided};

use decoder::Found;
use layout_plan::Plan;
use page_decide::damaged::next_damaged;
use page_decide::decide::{apart, decide_block, decide_lent, fill_serving, nothing};
use page_decide::{Decided, Scan};

// Keeps the first n exponents that were found for a block.
fn keep(found: Found, n: usize, block: u16, places: &mut [u16])
    requires { (n ≤ 64) × (length found.exponents ≡ 64) × (64 * block + 64 ≤ length places.old) }
    ensures { KeptFor block n found.exponents places.old places.new }
{
    let exponents = found.exponents;
    let at = 64 * block as usize;
    for i in 0..n {
        places[at + i] = exponents[i];
    }
}

// A count as a number of exponents.
fn wide(count: u8) -> usize
    ensures { result ≡ count }
{
    count as usize
}

// Keeps the count of a decided block, and its exponents where it has any.
fn keep_block(decided: Decided, block: u16, places: &mut [u16], flips: &mut [u8; 256])
    requires block_bound { (block < 256) × (length decided.found.exponents ≡ 64) × (decided.count < 128 → decided.count ≤ 64) }
    requires block_in_bounds { (64 * block + 64 ≤ length places.old) × (length flips.old ≡ 256) }
    ensures { BlockKept block decided.count decided.found.exponents
        places.old flips.old places.new flips.new }
{
    let count = decided.count;
    let found = decided.found;
    let b = block as usize;
    flips[b] = count;
    if 128 <= count {
        return;
    }
    keep(found, wide(count), block, places);
}

// Whether a count is that of a ruined block.
fn is_ruined(count: u8) -> bool
    ensures { (result ≡ true → count ≡ 255) × (result ≡ false → count ≡ 255 → ⊥) }
{
    count == 255
}

// Decides the damaged blocks from `scan` on with tables that serve them, and answers with the lowest ruined one, if there is one. `table`
// is that of the later blocks' generator.
fn keep_from(
    plan: Plan,
    page: &[u8],
    scan: Scan,
    table: &[u8],
    powers: &[u16; 16384],
    logs: &[u16; 16384],
    rows: &[u16; 2048],
    places: &mut [u16],
    flips: &mut [u8; 256],
) -> Option<u16>
    requires pending { Pending plan page.now table.now scan places.old flips.old }
    requires serves { Serves plan scan.block powers.now logs.now rows.now }
    ensures { PageDecided plan page.now places.new flips.new result }
{
    let blocks = plan.blocks;
    let mut at = scan;
    let mut last = nothing();
    while at.block < blocks {
        let b = at.block;
        last = decide_block(plan, page, at, last, powers, logs, rows);
        let n = last.count;
        if is_ruined(n) {
            return Some(b);
        }
        keep_block(last, b, places, flips);
        at = next_damaged(plan, page, table, at);
    }
    None
}

// Decides the damaged blocks from `scan` on, which all have the field of the later blocks, with lent tables, which are filled for it.
fn keep_alike(
    plan: Plan,
    page: &[u8],
    scan: Scan,
    table: &[u8],
    powers: &mut [u16; 16384],
    logs: &mut [u16; 16384],
    rows: &mut [u16; 2048],
    places: &mut [u16],
    flips: &mut [u8; 256],
) -> Option<u16>
    requires pending { Pending plan page.now table.now scan places.old flips.old }
    requires one_field { (OneField plan scan.block) × (length powers.old ≡ 16384) × (length logs.old ≡ 16384) × (length rows.old ≡ 2048) }
    ensures { PageDecided plan page.now places.new flips.new result }
{
    fill_serving(plan, powers, logs, rows);
    keep_from(plan, page, scan, table, powers, logs, rows, places, flips)
}

// Decides the damaged blocks of a page with lent tables, which are filled for block 0 and for the later blocks in turn where their fields
// differ: block 0 is then decided alone.
fn keep_lent(
    plan: Plan,
    page: &[u8],
    scan: Scan,
    table: &[u8],
    powers: &mut [u16; 16384],
    logs: &mut [u16; 16384],
    rows: &mut [u16; 2048],
    places: &mut [u16],
    flips: &mut [u8; 256],
) -> Option<u16>
    requires pending { Pending plan page.now table.now scan places.old flips.old }
    requires block_lt_blocks { (scan.block < plan.blocks) × (length powers.old ≡ 16384) × (length logs.old ≡ 16384) × (length rows.old ≡ 2048) }
    ensures { PageDecided plan page.now places.new flips.new result }
{
    let own = apart(plan, scan);
    if !own {
        return keep_alike(plan, page, scan, table, powers, logs, rows, places, flips);
    }
    let decided = decide_lent(plan, page, scan, powers, logs, rows);
    let count = decided.count;
    if is_ruined(count) {
        return Some(0);
    }
    keep_block(decided, 0, places, flips);
    let next = next_damaged(plan, page, table, scan);
    let block = next.block;
    if block == plan.blocks {
        return None;
    }
    keep_alike(plan, page, next, table, powers, logs, rows, places, flips)
}

// Decides the damaged blocks of a page, of which `scan` is the first, up to the first that is ruined, which is the answer; none is where
// every block can be read. `table` is that of the later blocks' generator. The tables by which blocks are decoded are here, once for all blocks, since only a damaged page needs them.
pub fn keep_damaged(
    plan: Plan,
    page: &[u8],
    scan: Scan,
    table: &[u8],
    places: &mut [u16],
    flips: &mut [u8; 256],
) -> Option<u16>
    requires pending { Pending plan page.now table.now scan places.old flips.old }
    requires block_lt_blocks { scan.block < plan.blocks }
    ensures { PageDecided plan page.now places.new flips.new result }
{
    let mut powers = [0u16; 16384];
    let mut logs = [0u16; 16384];
    let mut rows = [0u16; 2048];
    keep_lent(
        plan,
        page,
        scan,
        table,
        &mut powers,
        &mut logs,
        &mut rows,
        places,
        flips,
    )
}
