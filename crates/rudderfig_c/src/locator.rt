// Remainders for a hardware locator, as C calls them.
ghost use Rattle.fragments.specs.Calls.{export_of, import_of};
ghost use Rattle.rudderfig.specs.Fragments.{FragmentsReturns};

// The fragments of a remainder.
#[unsafe(no_mangle)]
pub extern "C" fn rudderfig_export_fragments(
    level_field: u64,
    remainder: &[u8],
    fragments: &mut [u32],
) -> u64
    ensures { FragmentsReturns (export_of level_field remainder.now fragments.old) result fragments.new }
{
    rudderfig::locator::rudderfig_export_fragments(level_field, remainder, fragments)
}

// The remainder that fragments hold.
#[unsafe(no_mangle)]
pub extern "C" fn rudderfig_import_fragments(
    level_field: u64,
    fragments: &[u32],
    remainder: &mut [u8],
) -> u64
    ensures { FragmentsReturns (import_of level_field fragments.now remainder.old) result remainder.new }
{
    rudderfig::locator::rudderfig_import_fragments(level_field, fragments, remainder)
}
