// The generators of the levels t = 0, 2, .., 62 as constants, for both fields.
//
//   generator_row    the generator of a level
//
// A row is the generator of its level: bit p of the number in the words, lowest word first, is the coefficient of x^p. The rows are statics,
// which lie in read-only memory: a row takes no stack and no time but its reading.
//
//   thirteen, fourteen    the rows of each field
//
// The rows stand in specs/Rows.antt too. That they are the generators is shown in proofs/: Chain (a list of rows is tested by a chain of
// products), Stored (both lists pass). `scripts/generators.py` prints both files and the lists; `scripts/compare-generators` compares them
// with PARI/GP.
#![tactic(auto)]

mod fourteen;
mod thirteen;

ghost use Rattle.std.specs.Prelude.{◌≡◌, ◌*◌, ◌≤◌};
ghost use Rattle.code.specs.Generator.{generator};
ghost use Rattle.code.specs.Register.{register};

use field::Field;

// The generator of the level t = 2 ecc.
pub fn generator_row(f: Field, ecc: usize) -> [u64; 14]
    requires { ecc ≤ 31 }
    ensures { register result ≡ generator f (2 * ecc) }
{
    match f {
        Field::Thirteen => thirteen::ROWS[ecc],
        Field::Fourteen => fourteen::ROWS[ecc],
    }
}
