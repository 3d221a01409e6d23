// The flips of a block as page positions.
ghost use Rattle.std.specs.Prelude.{◌≡◌, ◌++◌, ◌≤◌, ◌<◌, length, take, drop};
ghost use Rattle.layout_plan.specs.Plan.{covered};
ghost use Rattle.code.specs.Word.{Below};
ghost use Rattle.page_plan.specs.Plans.{Planned};
ghost use Rattle.page_explain.specs.Explain.{position_of, positions};

use decoder::Found;
use layout_plan::{Plan, block_covered, block_start};
use mark::place;

// The page position of an exponent of a block.
fn flip_position(plan: Plan, block: u16, exponent: u16) -> u32
    requires { (Planned plan) × (block < plan.blocks) × (exponent < covered plan block) }
    ensures { result ≡ position_of plan block exponent }
{
    let mark = plan.mark;
    let start = block_start(plan, block);
    let n = block_covered(plan, block);
    let at = start + (n - 1 - exponent as usize);
    place(mark, at) as u32
}

// Lists the first n exponents that were found for a block, each as its page position, at the start of the list.
pub fn list_flips(plan: Plan, block: u16, found: Found, n: usize, list: &mut [u32])
    requires planned { (Planned plan) × (block < plan.blocks) × (Below (covered plan block) (take n found.exponents)) }
    requires exponents_len { (length found.exponents ≡ 64) × (n ≤ 64) × (n ≤ length list.old) }
    ensures { list.new ≡ positions plan block (take n found.exponents) ++ drop n list.old }
{
    let exponents = found.exponents;
    for i in 0..n {
        list[i] = flip_position(plan, block, exponents[i]);
    }
}
