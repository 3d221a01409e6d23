// The calls about a page of sectors.
ghost use Rattle.std.specs.Prelude.{◌≡◌, []};
ghost use Rattle.sectors.specs.Sectors.{sector_acceptance};
ghost use Rattle.page_theory.specs.Calls.{write_ended, write_for, look_ended, look_for, take_ended, take_for, judge_ended, judge_for, claim_ended, claim_for};
ghost use Rattle.replies.specs.Replies.{verdict_number, verdict_block};
ghost use Rattle.page_judge.specs.Answers.{judge_flips};

use layout_plan::Sectors;
use page_claim::claim_for;
use page_judge::judge_for;
use page_look::look_for;
use page_take::take_for;
use page_write::write_for;
use replies::Refusal;
use sectors::check_sectors;

// Writes a page from the data of its sectors, first sector first.
pub fn write_page(sectors: Sectors, data: &[u8], page: &mut [u8]) -> Result<(), Refusal>
    ensures { write_ended (verdict_number result) (verdict_block result) page.new
        ≡ write_for (sector_acceptance sectors) [] «data».now page.old }
{
    write_for(check_sectors(sectors), &[], data, page)
}

// Looks at a page: the counts of all sectors.
pub fn look_page(sectors: Sectors, page: &[u8], counts: &mut [u8]) -> Result<(), Refusal>
    ensures { look_ended (verdict_number result) (verdict_block result) counts.new
        ≡ look_for (sector_acceptance sectors) page.now counts.old }
{
    look_for(check_sectors(sectors), page, counts)
}

// Takes the data out of a page.
pub fn take_page(sectors: Sectors, page: &[u8], data: &mut [u8]) -> Result<(), Refusal>
    ensures { take_ended (verdict_number result) (verdict_block result) [] «data».new
        ≡ take_for (sector_acceptance sectors) page.now [] «data».old }
{
    take_for(check_sectors(sectors), page, &mut [], data)
}

// Judges one sector of a page: its flip count.
pub fn judge_block(sectors: Sectors, page: &[u8], block: u64) -> Result<u8, Refusal>
    ensures { judge_ended (verdict_number result) (verdict_block result) (judge_flips result) ≡ judge_for (sector_acceptance sectors) page.now block }
{
    judge_for(check_sectors(sectors), page, block)
}

// Are these error locations of a sector, reported by a hardware locator, right?
pub fn check_claim(sectors: Sectors, page: &[u8], block: u64, claims: &[u16]) -> Result<(), Refusal>
    ensures { claim_ended (verdict_number result) ≡ claim_for (sector_acceptance sectors) page.now block claims.now }
{
    claim_for(check_sectors(sectors), page, block, claims)
}
