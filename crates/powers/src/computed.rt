// The powers of a for m = 14. Since a^14 = a^5 + a^3 + a + 1 and squares are additive, a^(14 s) = a^(5 s) + a^(3 s) + a^s + 1 for s = 1, 2, 4, ..:
// each power is the sum of the ones 9, 11, 13 and 14 strides s before it. At a stride of eight entries, eight can be made at a time.
ghost use Rattle.std.specs.Prelude.{◌≡◌, ◌*◌, ◌≤◌, length};
ghost use Rattle.field.specs.declared.Field.TheVariants.{Fourteen};
ghost use Rattle.stored_tables.specs.Powers.{Powers};
ghost use Rattle.powers.specs.Begun.{Begun, Stride};

// Computes the table of powers for m = 14.
pub fn compute_powers(powers: &mut [u16; 16384])
    requires { length powers.old ≡ 16384 }
    ensures { (Powers Fourteen powers.new) × (length powers.new ≡ 16384) }
{
    first_powers(powers);
    more_powers(1, 14, 112, powers);
    more_powers(8, 112, 16383, powers);
}

// The powers from 1 to a^13: no reduction.
fn first_powers(powers: &mut [u16; 16384])
    requires { length powers.old ≡ 16384 }
    ensures { Begun Fourteen 14 powers.new }
{
    let mut x: u16 = 1;
    for k in 0..14 {
        powers[k] = x;
        x *= 2;
    }
}

// The powers from one exponent up to another, where those before are there.
fn more_powers(stride: usize, from: usize, to: usize, powers: &mut [u16; 16384])
    requires { (Begun Fourteen from powers.old) × (Stride stride) × (stride * 14 ≤ from) × (from ≤ to) × (to ≤ 16384) }
    ensures { Begun Fourteen to powers.new }
{
    for k in from..to {
        let nine = k - stride * 9;
        let eleven = k - stride * 11;
        let thirteen = k - stride * 13;
        let fourteen = k - stride * 14;
        powers[k] = powers[nine] ^ powers[eleven] ^ powers[thirteen] ^ powers[fourteen];
    }
}
