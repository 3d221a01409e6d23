// The running calls of crate `fragments` one after the other: what is handed in comes back. Both call nothing but the public calls.
//
//   export_import     exports a remainder, and imports the fragments
//   import_export     imports fragments, and exports the remainder
#![tactic(auto)]

ghost use Rattle.std.specs.Prelude.{◌≡◌};
ghost use Rattle.fragment_trips.specs.RoundTrip.{tripped, remainder_back, fragments_back};

use fragments::{export_fragments, import_fragments};
use replies::Refusal;

// Exports a remainder, and imports the fragments into `back`.
pub fn export_import(
    level_field: u64,
    remainder: &[u8],
    fragments: &mut [u32],
    back: &mut [u8],
) -> Result<(), Refusal>
    ensures { tripped result fragments.new back.new
        ≡ remainder_back level_field remainder.now fragments.old back.old }
{
    export_fragments(level_field, remainder, fragments)?;
    import_fragments(level_field, fragments, back)
}

// Imports fragments, and exports the remainder into `back`.
pub fn import_export(
    level_field: u64,
    fragments: &[u32],
    remainder: &mut [u8],
    back: &mut [u32],
) -> Result<(), Refusal>
    ensures { tripped result remainder.new back.new
        ≡ fragments_back level_field fragments.now remainder.old back.old }
{
    import_fragments(level_field, fragments, remainder)?;
    export_fragments(level_field, remainder, back)
}
