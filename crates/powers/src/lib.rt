// The tables by which crate `field` makes products: the powers of a and their logarithms, for either field.
//
// Stored tables are copied (crates `powers13`, `logs13`, `logs14`). For m = 14 the powers are computed, each from four earlier ones.
#![tactic(auto)]

ghost use Rattle.std.specs.Prelude.{◌≡◌, length};
ghost use Rattle.field.specs.Tables.{Tables};

use field::Field;

mod computed;

// Fills a lent table of powers and a lent table of logarithms.
pub fn fill_tables(f: Field, powers: &mut [u16; 16384], logs: &mut [u16; 16384])
    requires { (length powers.old ≡ 16384) × (length logs.old ≡ 16384) }
    ensures tables { Tables f powers.new logs.new }
    ensures powers_len { (length powers.new ≡ 16384) × (length logs.new ≡ 16384) }
{
    match f {
        Field::Thirteen => {
            powers13::copy_powers(powers);
            logs13::copy_logs(powers, logs);
        }
        Field::Fourteen => {
            computed::compute_powers(powers);
            logs14::copy_logs(powers, logs);
        }
    }
}
