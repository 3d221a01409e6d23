// The table by which a message is divided 64 coefficients at a time (document 01, "The code"; document 02, E3).
//
//   make_table    the table of the generator of a level
//   row_words     how many words of 64 bits the parity of a message has while it is worked out
//   divisor_row   the generator of a level as it stands in as many words
//
// The parity so far is a partial remainder, one word longer than the divisor allows. A step takes that word away and adds what it stands for:
// the sum of a row for each of its eight bytes. One set of 256 rows does for all of them, since a row of bytes can be read from any byte on; none
// of the eight rows waits for another. 32 more rows divide the word that is left over at the end, four digits at a time. The generator is moved
// up to fill four, ten or fourteen words: no place in a word then depends on the level.
//
//   fill    the rows of the powers of 2 by doubling, the others as sums
//
// What a table is stands in specs/Table.antt, rows that are sums in specs/Sums.antt; proofs/ has the laws: Filling (the table while it is made), Level (the table of a level).
#![tactic(auto)]

mod fill;

ghost use Rattle.std.specs.Prelude.{◌≡◌, ◌+◌, ◌*◌, ◌%◌, ◌^◌, ◌≤◌, length};
ghost use Rattle.division_table.specs.Table.{width, gap, Table};
ghost use Rattle.field.specs.Field.{degree};
ghost use Rattle.code.specs.Generator.{generator};
ghost use Rattle.code.specs.Register.{low};

use field::Field;
use fill::fill;
use generators::generator_row;
use register_shifts::raised;
use remainder::Register;
use remainder::coefficients::parity_bits;

// How many words the parity has, for a generator of that degree: the divisor has the degree 64 times as many.
pub fn row_words(degree: usize) -> usize
    ensures { result ≡ width degree }
{
    if degree <= 256 {
        return 4;
    }
    if degree <= 640 { 10 } else { 14 }
}

// The generator of the level t moved up to fill these words, without its highest coefficient.
pub fn divisor_row(f: Field, t: usize) -> [u64; 14]
    requires { (t % 2 ≡ 0) × (t ≤ 62) }
    ensures { 2 ^ (64 * width (degree f * t)) + low result (width (degree f * t)) ≡ generator f t * 2 ^ gap (degree f * t) }
{
    let degree = parity_bits(f, t);
    let used = row_words(degree);
    let words = generator_row(f, t / 2);
    let row = Register { words: words };
    let moved = raised(row, 64 * used - degree);
    moved.words
}

// Makes the table of the generator of the level t. At t = 0 there is nothing to divide by, and none is made.
pub fn make_table(f: Field, t: usize, table: &mut [u8])
    requires { (t % 2 ≡ 0) × (t ≤ 62) × (36864 ≤ length table.old) }
    ensures { Table f t table.new }
{
    if t == 0 {
        return;
    }
    let used = row_words(parity_bits(f, t));
    let divisor = divisor_row(f, t);
    fill(table, divisor, used);
}
