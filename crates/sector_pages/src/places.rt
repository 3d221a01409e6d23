// Where the bits of a page of sectors belong.
ghost use Rattle.std.specs.Prelude.{◌≡◌};
ghost use Rattle.layout.specs.Bits.{bit_for, position_for};
ghost use Rattle.sectors.specs.Sectors.{sector_acceptance};

use layout::{BitPlace, Refusal};
use layout_plan::Sectors;
use page_bits::{bit_for, position_for};
use sectors::check_sectors;

// Where does the page bit at `position` belong?
pub fn locate_bit(sectors: Sectors, position: u64) -> Result<BitPlace, Refusal>
    ensures { result ≡ bit_for (sector_acceptance sectors) position }
{
    bit_for(check_sectors(sectors), position)
}

// Where does the coefficient of x^exponent of a sector lie?
pub fn bit_position(sectors: Sectors, block: u64, exponent: u64) -> Result<u64, Refusal>
    ensures { result ≡ position_for (sector_acceptance sectors) block exponent }
{
    position_for(check_sectors(sectors), block, exponent)
}
