// Partial remainders: numbers longer than the divisor allows that leave the same remainder. A division that need not finish at each
// step works on them; `reduce` finishes it.
//
// What a partial remainder is stands in specs/Partial.antt, the rows that it is reduced by in specs/Clearing.antt; proofs/ has the laws: Partial
// (partial remainders), Turns (the turns of `reduce`).
#![tactic(auto)]

ghost use Rattle.std.specs.Prelude.{◌≡◌, ℕ, ◌+◌, ◌*◌, ◌/◌, ◌%◌, ◌^◌, ◌≤◌, ◌<◌, length};
ghost use Rattle.code.specs.Register.{register};
ghost use Rattle.partial.specs.Partial.{reduced};
ghost use Rattle.partial.specs.Clearing.{row_words, Clearing};

use table_rows::row_bytes;
use wide::{Wide, row_added};

// How many words a row of the table has where the divisor has the degree 64 used.
pub fn row_size(used: usize) -> usize
    requires { used ≤ 14 }
    ensures { (result ≡ row_words used) × (used < result) × (result ≤ 15) }
{
    if used == 4 { 7 } else { used + 1 }
}

// A partial remainder of used + 1 words without digits 8b + k to 8b + k + 3 of its highest word, where no higher one is left: k is 0, and `first` 256, or
// k is 4, and `first` 272.
fn cleared(state: Wide, table: &[u8], used: usize, b: usize, k: usize, first: usize) -> Wide
    requires { (2 ≤ used) × (used ≤ 14) × (b < 8) × (k ≤ 4) × (first ≤ 272) × (36864 ≤ length table.now) × (register state.words < 2 ^ (64 * used + 64)) }
    ensures { (register result.words < 2 ^ (64 * used + 64)) × ((g : ℕ) → Clearing (row_words used) (64 * used) g table.now → g / 2 ^ (64 * used) ≡ 1
        → k % 4 ≡ 0 → first ≡ 256 + 4 * k → register state.words < 2 ^ (64 * used + (8 * b + k) + 4)
        → (register result.words < 2 ^ (64 * used + (8 * b + k))) × (reduced (64 * used) g (register result.words) ≡ reduced (64 * used) g (register state.words))) }
{
    let words = state.words;
    let c = ((words[used] >> (8 * b + k)) % 16) as usize;
    let size = row_bytes(row_size(used));
    row_added(state, table, size * (first + c) + 8 - b, used + 1)
}

// The remainder that a partial remainder of used + 1 words stands for: four digits of its highest word are cleared at a time, the highest first.
pub fn reduce(state: Wide, table: &[u8], used: usize) -> Wide
    requires { (2 ≤ used) × (used ≤ 14) × (36864 ≤ length table.now) × (register state.words < 2 ^ (64 * used + 64)) }
    ensures { (g : ℕ) → Clearing (row_words used) (64 * used) g table.now → g / 2 ^ (64 * used) ≡ 1
        → register result.words ≡ reduced (64 * used) g (register state.words) }
{
    let mut r = state;
    for b in (0..8).rev() {
        let odd = cleared(r, table, used, b, 4, 272);
        r = cleared(odd, table, used, b, 0, 256);
    }
    r
}
