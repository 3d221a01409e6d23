// Arrays of 128 field elements, read as power series and as polynomials: the common ground of syndromes, key equation and root search.
//
//   mix    adds a multiple of one array, moved up by some places, to another
//
// What an array stands for is said by specs/Series.antt; proofs/Element.antt and proofs/Arrays.antt cross from numbers to elements.
#![tactic(auto)]

ghost use Rattle.std.specs.Prelude.{◌≡◌, ℕ, ◌+◌, ◌<◌, ◌≤◌, get_or};
ghost use Rattle.field.specs.Field.{longest};
ghost use Rattle.field.specs.Tables.{Tables};
ghost use Rattle.field.proofs.Instance.{gf, num};
ghost use Rattle.series.specs.Series.{Elements, Updated};

use field::Field;
use field_tables::scaled;

// c + a^e x^gap u, where u has the given number of terms.
pub fn mix(
    f: Field,
    powers: &[u16; 16384],
    logs: &[u16; 16384],
    c: &mut [u16; 128],
    u: &[u16; 128],
    e: usize,
    gap: usize,
    terms: usize,
)
    requires tables { Tables f powers.now logs.now }
    requires elements { (Elements f c.old) × (Elements f u.now) }
    requires e_bound { (e < longest f) × (gap + terms ≤ 128) × ((j : ℕ) → terms ≤ j → get_or u.now j 0 ≡ 0) }
    ensures { Updated f (gf f) (num f) c.old u.now e gap c.new }
{
    for i in 0..terms {
        let p = scaled(f, powers, logs, u[i], e);
        c[gap + i] ^= p;
    }
}
