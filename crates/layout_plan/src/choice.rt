// The field that a layout chooses.
ghost use Rattle.std.specs.Prelude.{◌≡◌};
ghost use Rattle.layout_plan.specs.Record.{field_of};

use field::Field;

// The field that a bit of a layout word chooses.
pub fn field_of(bit: u8) -> Field
    ensures { result ≡ field_of bit }
{
    if bit == 0 {
        return Field::Thirteen;
    }
    Field::Fourteen
}
