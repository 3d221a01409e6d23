// The places of a store: the first ones hold its layouts.
ghost use Rattle.std.specs.Prelude.{◌≡◌, ◌-◌, ◌≤◌, ◌<◌, length, take};
ghost use Rattle.version_list.specs.Places.{held, index_of, closed};

use crate::Numbered;

// How many layouts the places hold.
// By hand: array and count are two fields of `store::Store`, which is copied as a whole and lies in fixed memory: no heap, so no list that grows.
pub fn held(layouts: [Numbered; 32], count: usize) -> usize
    ensures { (result ≡ held count) × (length layouts ≡ 32) }
{
    if count < 32 {
        return count;
    }
    32
}

// The place of the layout with a number among the first ones, and their count where there is none.
pub fn index_of(layouts: [Numbered; 32], count: usize, version: u64) -> usize
    requires { count ≤ 32 }
    ensures { result ≡ index_of (take count layouts) version }
{
    layouts[..count]
        .iter()
        .position(|layout| layout.number as u64 == version)
        .unwrap_or(count)
}

// Moves the layouts behind a place one place forward.
pub fn close_gap(layouts: [Numbered; 32], count: usize, at: usize) -> [Numbered; 32]
    requires { (at < count) × (count ≤ 32) }
    ensures { result ≡ closed layouts at (count - 1) }
{
    let mut moved = layouts;
    moved[at..count - 1].copy_from_slice(&layouts[at + 1..count]);
    moved
}
