// The rows of a table: those of the powers of 2 by doubling, the others as sums of two that are there.
ghost use Rattle.std.specs.Prelude.{◌≡◌, ℕ, ◌+◌, ◌-◌, ◌*◌, ◌^◌, ◌≤◌, ◌<◌, length};
ghost use Rattle.code.specs.Generator.{times};
ghost use Rattle.code.specs.Register.{low, register};
ghost use Rattle.table_rows.specs.Rows.{Row, OnlyRows};
ghost use Rattle.partial.specs.Clearing.{row_words, multiple_of, Clearing};
ghost use Rattle.division_table.specs.Table.{RowWords, Filled};
ghost use Rattle.division_table.specs.Sums.{Sums, Powers, All};

use partial::reduce;
use table_rows::{add_row, clear_row, put_power, put_row, row_bytes};
use wide::Wide;

// The divisor of degree 64 used whose other coefficients are in the first words of a row.
fn divisor_wide(row: [u64; 14], used: usize) -> Wide
    requires { used ≤ 14 }
    ensures { register result.words ≡ 2 ^ (64 * used) + low row used }
{
    let mut words = [0u64; 15];
    for i in 0..used {
        words[i] = row[i];
    }
    words[used] = 1;
    Wide { words: words }
}

// The number in the first words of a row times 2^64.
fn word_higher(row: [u64; 14], used: usize) -> Wide
    requires { used ≤ 14 }
    ensures { register result.words ≡ low row used * 2 ^ 64 }
{
    let mut words = [0u64; 15];
    for i in 0..used {
        words[i + 1] = row[i];
    }
    Wide { words: words }
}

// 2^i.
fn power(i: usize) -> usize
    requires { i ≤ 8 }
    ensures { result ≡ 2 ^ i }
{
    1usize << i
}

// From row `first` on, the sums of row 2^i with the rows before it.
fn add_power(table: &mut [u8], n: usize, first: usize, i: usize)
    requires { (n ≤ 15) × (i < 8) × (first + 2 ^ i + 2 ^ i ≤ 288) × (36864 ≤ length table.old) }
    ensures { ((X : ℕ → ℕ) → Sums (i + 1) X → All n (2 ^ i) X first table.old → Row n table.old (first + 2 ^ i) (X (2 ^ i))
        → All n (2 ^ (i + 1)) X first table.new)
        × OnlyRows n (first + 2 ^ i + 1) (2 ^ i - 1) table.old table.new }
{
    let count = power(i);
    for v in 1..count {
        add_row(table, n, first + count, first + v, first + count + v);
    }
}

// From row `first` on, all sums of the rows of the powers of 2 below 2^bits.
fn fill_sums(table: &mut [u8], n: usize, first: usize, bits: usize)
    requires { (n ≤ 15) × (0 < bits) × (bits ≤ 8) × (first + 2 ^ bits ≤ 288) × (36864 ≤ length table.old) }
    ensures { ((X : ℕ → ℕ) → Sums bits X → Powers n bits X first table.old → All n (2 ^ bits) X first table.new)
        × OnlyRows n first (2 ^ bits) table.old table.new }
{
    for i in 1..bits {
        add_power(table, n, first, i);
    }
}

// Rows 256, 257, 258, 260 and 264: the multiples of the divisor with no digits from its degree on, and with one of the lowest four of these. Twice
// such a multiple has the next one, and the divisor is added where another digit gets there; row 256 is zero and row 257 the divisor.
fn even_powers(table: &mut [u8], divisor: [u64; 14], used: usize, n: usize)
    requires { (RowWords used) × (used < n) × (n ≤ 15) × (36864 ≤ length table.old) }
    ensures { Powers n 4 (multiple_of (64 * used) (2 ^ (64 * used) + low divisor used)) 256 table.new
        × OnlyRows n 256 16 table.old table.new }
{
    clear_row(table, n, 256);
    let whole = divisor_wide(divisor, used);
    put_row(table, n, 257, whole);
    for i in 1..4 {
        let from = 256 + power(i - 1);
        let one = (table[row_bytes(n) * from + 8 * used + 7] / 128) as usize;
        put_power(table, n, from, 256 + one, 256 + power(i), 1);
    }
}

// Rows 272, 273, 274, 276 and 280: the same times 2^4. Row 0 is zero.
fn odd_powers(table: &mut [u8], n: usize)
    requires { (n ≤ 15) × (36864 ≤ length table.old) }
    ensures { ((X : ℕ → ℕ) → Row n table.old 0 0 → X 0 ≡ 0 → ((i : ℕ) → i < 4 → X (2 ^ i) * 2 ^ 4 < 2 ^ (64 * n))
        → Powers n 4 X 256 table.old → Powers n 4 (λ v. X v * 2 ^ 4) 272 table.new)
        × OnlyRows n 272 16 table.old table.new }
{
    clear_row(table, n, 272);
    for i in 0..4 {
        put_power(table, n, 256 + power(i), 0, 272 + power(i), 4);
    }
}

// Rows 1, 2, 4, .. 128: a number and its doubles. Row 0 is zero.
fn byte_powers(table: &mut [u8], n: usize, row: Wide)
    requires { (n ≤ 15) × (36864 ≤ length table.old) }
    ensures { (Row n table.old 0 0 → register row.words * 2 ^ 8 < 2 ^ (64 * n)
        → Powers n 8 (times 8 (register row.words)) 0 table.new)
        × OnlyRows n 1 255 table.old table.new }
{
    put_row(table, n, 1, row);
    for i in 1..8 {
        put_power(table, n, power(i - 1), 0, power(i), 1);
    }
}

// Row 0, which is zero, and the rows by which a partial remainder is reduced.
fn fill_clearing(table: &mut [u8], divisor: [u64; 14], used: usize, n: usize)
    requires { (RowWords used) × (used < n) × (n ≤ 15) × (36864 ≤ length table.old) }
    ensures { Row n table.new 0 0 × Clearing n (64 * used) (2 ^ (64 * used) + low divisor used) table.new }
{
    clear_row(table, n, 0);
    even_powers(table, divisor, used, n);
    odd_powers(table, n);
    fill_sums(table, n, 256, 4);
    fill_sums(table, n, 272, 4);
}

// The table of a divisor of the degree 64 USED, in rows of N words. Both numbers are known to the compiler: the loops over bytes are then unrolled.
fn fill_wide<const USED: usize, const N: usize>(table: &mut [u8], divisor: [u64; 14])
    requires { (RowWords USED) × (row_words USED ≡ N) × (36864 ≤ length table.old) }
    ensures { Filled USED (2 ^ (64 * USED) + low divisor USED) table.new }
{
    fill_clearing(table, divisor, USED, N);
    let higher = word_higher(divisor, USED);
    let row = reduce(higher, table, USED);
    byte_powers(table, N, row);
    fill_sums(table, N, 0, 8);
}

// Makes the table of a divisor of degree 64 used, given without its highest coefficient.
pub fn fill(table: &mut [u8], divisor: [u64; 14], used: usize)
    requires { (RowWords used) × (36864 ≤ length table.old) }
    ensures { Filled used (2 ^ (64 * used) + low divisor used) table.new }
{
    if used == 4 {
        fill_wide::<4, 7>(table, divisor);
    } else if used == 10 {
        fill_wide::<10, 11>(table, divisor);
    } else {
        fill_wide::<14, 15>(table, divisor);
    }
}
