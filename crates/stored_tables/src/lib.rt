// Stored tables of powers and of logarithms: what they are, how they are tested, and how a lent table is filled from one. A constant array is
// built anew wherever a function names it, so each stored table has a crate of its own, with one function that names its parts.
//
//   copy_part    copies a stored part to its place in a lent table
//   copy_parts   copies four parts of 2,048 entries, one after the other
//   place_one    stores the logarithm of 1 where the table of powers says
#![tactic(auto)]

ghost use Rattle.std.specs.Prelude.{◌≡◌, ◌++◌, ◌+◌, ◌≤◌, length, get_or, set};
ghost use Rattle.stored_tables.specs.Copied.{Copied};

// Copies a part to the entries from at on.
pub fn copy_part(part: &[u16], at: usize, table: &mut [u16; 16384])
    requires { (length table.old ≡ 16384) × (at + length part.now ≤ 16384) }
    ensures { Copied at part.now table.old table.new }
{
    table[at..at + part.len()].copy_from_slice(part);
}

// Copies four parts to the entries from at on.
pub fn copy_parts(
    first: &[u16; 2048],
    second: &[u16; 2048],
    third: &[u16; 2048],
    fourth: &[u16; 2048],
    at: usize,
    table: &mut [u16; 16384],
)
    requires { (length table.old ≡ 16384) × (at ≤ 8192) }
    ensures { Copied at
        (first.now ++ second.now ++ third.now ++ fourth.now)
        table.old table.new }
{
    copy_part(first, at, table);
    let second_at = at + 2048;
    copy_part(second, second_at, table);
    let third_at = at + 4096;
    copy_part(third, third_at, table);
    let fourth_at = at + 6144;
    copy_part(fourth, fourth_at, table);
}

// Stores the logarithm of 1, which a stored table has too. The compiler does not know the place, which keeps it from writing all stores
// of the function that names the table out again in each caller.
pub fn place_one(powers: &[u16; 16384], logs: &mut [u16; 16384])
    requires { (get_or powers.now 0 0 ≡ 1) × (length logs.old ≡ 16384) }
    ensures { logs.new ≡ set logs.old 1 0 }
{
    let one = powers[0] as usize;
    logs[one] = 0;
}
