// Remainders for a hardware locator, as C calls them (document 02, E9).
//
//   rudderfig_export_fragments     the fragments of a remainder
//   rudderfig_import_fragments     the remainder that fragments hold
ghost use Rattle.fragments.specs.Calls.{export_of, import_of};
ghost use Rattle.rudderfig.specs.Fragments.{FragmentsReturns};

use answer_words::answer_word;
use fragments::{export_fragments, import_fragments};
use replies::answer_number;

// The fragments of a remainder.
pub fn rudderfig_export_fragments(level_field: u64, remainder: &[u8], fragments: &mut [u32]) -> u64
    ensures { FragmentsReturns (export_of level_field remainder.now fragments.old) result fragments.new }
{
    let exported = export_fragments(level_field, remainder, fragments);
    answer_word(answer_number(exported), 0, 0, 0)
}

// The remainder that fragments hold.
pub fn rudderfig_import_fragments(level_field: u64, fragments: &[u32], remainder: &mut [u8]) -> u64
    ensures { FragmentsReturns (import_of level_field fragments.now remainder.old) result remainder.new }
{
    let imported = import_fragments(level_field, fragments, remainder);
    answer_word(answer_number(imported), 0, 0, 0)
}
