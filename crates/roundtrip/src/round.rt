// The round trip of a page: written, damaged by a mask, looked at, taken.
ghost use Rattle.std.specs.Prelude.{◌≡◌};
ghost use Rattle.layout_plan.specs.Record.{words_of};
ghost use Rattle.layout.specs.Acceptance.{acceptance};
ghost use Rattle.page_theory.specs.Damage.{Accepts};
ghost use Rattle.page_theory.specs.Calls.{write_ended, write_of};
ghost use Rattle.roundtrip.specs.Round.{back_ended, back_of, round_ended, round_in, round_of};

use crate::Failure;
use crate::mask::{flip_by, mask_allowed};
use layout::{check_layout, refusal_reply};
use layout_plan::{Plan, plan_of};
use page_look::look_page;
use page_take::take_page;
use page_write::write_page;
use replies::answer_number;

// Writes a page. The result is the reply.
fn write(edition: u64, words: &[u8], metadata: &[u8], data: &[u8], page: &mut [u8]) -> u8
    ensures { write_ended result 0 page.new
        ≡ write_of (words_of edition words.now) metadata.now «data».now page.old }
{
    answer_number(write_page(edition, words, metadata, data, page))
}

// Looks at a page, and takes it where it is not refused. The result is the reply of the last call.
fn read_back(
    edition: u64,
    words: &[u8],
    page: &[u8],
    metadata: &mut [u8],
    data: &mut [u8],
    counts: &mut [u8],
) -> u8
    ensures { back_ended result metadata.new «data».new counts.new
        ≡ back_of (words_of edition words.now) page.now metadata.old «data».old counts.old }
{
    let looked = answer_number(look_page(edition, words, page, counts));
    if looked != 0 {
        return looked;
    }
    answer_number(take_page(edition, words, page, metadata, data))
}

// The round trip under a plan.
fn round_in(
    plan: Plan,
    edition: u64,
    words: &[u8],
    metadata: &[u8],
    data: &[u8],
    mask: &[u8],
    page: &mut [u8],
    metadata_out: &mut [u8],
    data_out: &mut [u8],
    counts: &mut [u8],
) -> Result<(), Failure>
    requires { Accepts (acceptance (words_of edition words.now)) plan }
    ensures { round_ended result page.new metadata_out.new data_out.new counts.new
        ≡ round_in plan metadata.now «data».now mask.now page.old
        metadata_out.old data_out.old counts.old }
{
    let written = write(edition, words, metadata, data, page);
    if written != 0 {
        return Err(Failure::Refused(written));
    }
    if !mask_allowed(plan, mask) {
        return Err(Failure::Mask);
    }
    flip_by(mask, page);
    let reply = read_back(edition, words, page, metadata_out, data_out, counts);
    if reply != 0 {
        return Err(Failure::Refused(reply));
    }
    Ok(())
}

// Writes a page, flips the bits that a mask names, looks at the page, and takes it.
pub fn round_trip(
    edition: u64,
    words: &[u8],
    metadata: &[u8],
    data: &[u8],
    mask: &[u8],
    page: &mut [u8],
    metadata_out: &mut [u8],
    data_out: &mut [u8],
    counts: &mut [u8],
) -> Result<(), Failure>
    ensures { round_ended result page.new metadata_out.new data_out.new counts.new
        ≡ round_of (words_of edition words.now) metadata.now «data».now mask.now page.old
        metadata_out.old data_out.old counts.old }
{
    match check_layout(edition, words) {
        Ok(layout) => {
            round_in(
                plan_of(layout),
                edition,
                words,
                metadata,
                data,
                mask,
                page,
                metadata_out,
                data_out,
                counts,
            )
        }
        Err(refusal) => Err(Failure::Refused(refusal_reply(refusal))),
    }
}
