// Rows of a table of bytes (specs/Rows.antt): written, and made of rows that come before. All rows of a table have n words.
//
//   clear_row    a row of zero
//   put_row      a row of a number in words
//   put_power    a row times 2^k, plus another row
//   add_row      the sum of two rows
#![tactic(auto)]

ghost use Rattle.std.specs.Prelude.{◌≡◌, ℕ, ◌+◌, ◌*◌, ◌^◌, ◌≤◌, ◌<◌, length};
ghost use Rattle.std.specs.Int.Bits.{bit_xor};
ghost use Rattle.code.specs.Register.{low};
ghost use Rattle.table_rows.specs.Rows.{row_bytes, Row, OnlyRows};

use bits::read::joined;
use wide::{Wide, store_row, store_word};

// How many bytes a row takes.
pub fn row_bytes(n: usize) -> usize
    requires { n ≤ 15 }
    ensures { result ≡ row_bytes n }
{
    8 * n + 8
}

// Row v becomes zero.
pub fn clear_row(rows: &mut [u8], n: usize, v: usize)
    requires { (n ≤ 15) × (row_bytes n * (v + 1) ≤ length rows.old) }
    ensures { Row n rows.new v 0 × OnlyRows n v 1 rows.old rows.new }
{
    let size = row_bytes(n);
    let to = size * v;
    for i in 0..size {
        rows[to + i] = 0;
    }
}

// Row v becomes the number in the first words of a register.
pub fn put_row(rows: &mut [u8], n: usize, v: usize, row: Wide)
    requires { (n ≤ 15) × (row_bytes n * (v + 1) ≤ length rows.old) }
    ensures { Row n rows.new v (low row.words n) × OnlyRows n v 1 rows.old rows.new }
{
    let to = row_bytes(n) * v;
    store_word(rows, to, 0);
    store_row(rows, to + 8, row, n);
}

// Row `to` becomes row `from` times 2^k, plus row `plus` over GF(2).
pub fn put_power(rows: &mut [u8], n: usize, from: usize, plus: usize, to: usize, k: usize)
    requires { (n ≤ 15) × (from < to) × (plus < to) × (row_bytes n * (to + 1) ≤ length rows.old) × (0 < k) × (k < 8) }
    ensures { ((x y : ℕ) → Row n rows.old from x → Row n rows.old plus y → x * 2 ^ k < 2 ^ (64 * n)
        → Row n rows.new to (bit_xor (x * 2 ^ k) y)) × OnlyRows n to 1 rows.old rows.new }
{
    let size = row_bytes(n);
    let a = size * from;
    let b = size * plus;
    let c = size * to;
    store_word(rows, c, 0);
    for i in 8..size {
        let byte = joined(rows[a + i], rows[a + i - 1], k);
        rows[c + i] = byte ^ rows[b + i];
    }
}

// Row `to` becomes the sum over GF(2) of rows `one` and `other`.
pub fn add_row(rows: &mut [u8], n: usize, one: usize, other: usize, to: usize)
    requires { (n ≤ 15) × (one < to) × (other < to) × (row_bytes n * (to + 1) ≤ length rows.old) }
    ensures { ((x y : ℕ) → Row n rows.old one x → Row n rows.old other y → Row n rows.new to (bit_xor x y))
        × OnlyRows n to 1 rows.old rows.new }
{
    let size = row_bytes(n);
    let a = size * one;
    let b = size * other;
    let c = size * to;
    for i in 0..size {
        rows[c + i] = rows[a + i] ^ rows[b + i];
    }
}
