// Deciding damaged blocks, one after the other.
ghost use Rattle.std.specs.Prelude.{◌≡◌, true, false, ℕ, ◌*◌, ◌^◌, ◌<◌, ◌≤◌, length};
ghost use Rattle.field.specs.Field.{degree};
ghost use Rattle.bits.specs.Decides.{Decides};
ghost use Rattle.layout_plan.specs.Plan.{field, level, covered};
ghost use Rattle.code.specs.Register.{register};
ghost use Rattle.syndrome_lanes.specs.Lanes.{Decoding};
ghost use Rattle.decoder.specs.Locating.{Finds};
ghost use Rattle.page_plan.specs.Plans.{Planned, Ready};
ghost use Rattle.page_decide.specs.Scanning.{Left};
ghost use Rattle.page_decide.specs.Deciding.{Remembers, Alike, BlockDecided, OneField, Serves};

use crate::{Decided, Scan};
use block_outcome::{block_count, block_outcome};
use decoder::{Found, fill_decoding};
use layout_plan::{Plan, block_shape};
use remainder::Register;
use remainder::coefficients::zero;

// No block decided yet: nothing that a later block could be like.
pub fn nothing() -> Decided
    ensures { result.known ≡ false }
{
    let found = Found {
        located: false,
        count: 0,
        exponents: [0u16; 64],
    };
    Decided {
        known: false,
        first: false,
        remainder: zero(),
        found: found,
        count: 0,
    }
}

// Whether two registers have the same words.
fn same_words(a: Register, b: Register) -> bool
    ensures { Decides result (a.words ≡ b.words) }
{
    a.words == b.words
}

// Whether a block has the shape and the remainder of the last decided one: both are of the first blocks or both are not, and the registers
// are the same.
fn alike(plan: Plan, last: Decided, block: u16, remainder: Register) -> bool
    ensures { Decides result (Alike plan last block remainder.words) }
{
    let known = last.known;
    if !known {
        return false;
    }
    let first = block < plan.firsts;
    if first != last.first {
        return false;
    }
    let other = last.remainder;
    same_words(other, remainder)
}

// What becomes of a block with this remainder: what was found for the last decided one where they are alike, and else by decoding.
fn outcome_after(
    plan: Plan,
    block: u16,
    remainder: Register,
    last: Decided,
    powers: &[u16; 16384],
    logs: &[u16; 16384],
    rows: &[u16; 2048],
) -> Found
    requires planned { (Planned plan) × (block < plan.blocks) × (Decoding (field plan block) (level plan block) powers.now logs.now rows.now) }
    requires words_bound { (register remainder.words < 2 ^ (degree (field plan block) * level plan block)) × (Remembers plan last) }
    ensures { Finds (field plan block) (level plan block) (covered plan block) (register remainder.words) result }
{
    if alike(plan, last, block, remainder) {
        let found = last.found;
        return found;
    }
    block_outcome(plan, block, remainder, powers, logs, rows)
}

// Decides a damaged block, with the tables of its field and level. `last` is the block that was decided before it.
pub fn decide_block(
    plan: Plan,
    page: &[u8],
    scan: Scan,
    last: Decided,
    powers: &[u16; 16384],
    logs: &[u16; 16384],
    rows: &[u16; 2048],
) -> Decided
    requires ready { (Ready plan page.now) × (Left plan page.now scan) × (Remembers plan last) }
    requires decoding { Decoding (field plan scan.block) (level plan scan.block) powers.now logs.now rows.now }
    ensures { BlockDecided plan page.now scan.block result }
{
    let block = scan.block;
    let remainder = scan.remainder;
    let found = outcome_after(plan, block, remainder, last, powers, logs, rows);
    let count = block_count(plan, page, block, found);
    Decided {
        known: true,
        first: block < plan.firsts,
        remainder: remainder,
        found: found,
        count: count,
    }
}

// Decides a damaged block by itself, with lent tables, which are filled for it.
pub fn decide_lent(
    plan: Plan,
    page: &[u8],
    scan: Scan,
    powers: &mut [u16; 16384],
    logs: &mut [u16; 16384],
    rows: &mut [u16; 2048],
) -> Decided
    requires ready { (Ready plan page.now) × (Left plan page.now scan) }
    requires powers_len { (length powers.old ≡ 16384) × (length logs.old ≡ 16384) × (length rows.old ≡ 2048) }
    ensures block_decided { BlockDecided plan page.now scan.block result }
    ensures powers_len_2 { (length powers.new ≡ 16384) × (length logs.new ≡ 16384) × (length rows.new ≡ 2048) }
{
    let block = scan.block;
    let shape = block_shape(plan, block);
    let f = shape.field;
    let t = shape.level as usize;
    fill_decoding(f, t, powers, logs, rows);
    decide_block(plan, page, scan, nothing(), powers, logs, rows)
}

// The same with tables of its own. They are here, since only a damaged block needs them.
pub fn decide_alone(plan: Plan, page: &[u8], scan: Scan) -> Decided
    requires { (Ready plan page.now) × (Left plan page.now scan) }
    ensures { BlockDecided plan page.now scan.block result }
{
    let mut powers = [0u16; 16384];
    let mut logs = [0u16; 16384];
    let mut rows = [0u16; 2048];
    decide_lent(plan, page, scan, &mut powers, &mut logs, &mut rows)
}

// Whether a damaged block is block 0 with another field than the later ones. From any other on, one field serves.
pub fn apart(plan: Plan, scan: Scan) -> bool
    requires { Planned plan }
    ensures { (result ≡ false → OneField plan scan.block) × (result ≡ true → scan.block ≡ 0) }
{
    let block = scan.block;
    if block != 0 {
        return false;
    }
    let first = plan.first;
    let later = plan.later;
    let f = first.field;
    let g = later.field;
    let m = f.degree();
    let n = g.degree();
    m != n
}

// The higher of the two levels of a plan.
fn higher_level(plan: Plan) -> usize
    requires { Planned plan }
    ensures { (result ≤ 62) × ((b : ℕ) → b < plan.blocks → level plan b ≤ result) }
{
    let first = plan.first;
    let later = plan.later;
    let t = first.level as usize;
    let u = later.level as usize;
    t.max(u)
}

// Fills lent tables for the blocks of a page from which on one field serves.
pub fn fill_serving(
    plan: Plan,
    powers: &mut [u16; 16384],
    logs: &mut [u16; 16384],
    rows: &mut [u16; 2048],
)
    requires { (Planned plan) × (length powers.old ≡ 16384) × (length logs.old ≡ 16384) × (length rows.old ≡ 2048) }
    ensures { (b : ℕ) → OneField plan b → Serves plan b powers.new logs.new rows.new }
{
    let t = higher_level(plan);
    let later = plan.later;
    let f = later.field;
    fill_decoding(f, t, powers, logs, rows);
}
