// The replies of document 01's table ("Replies"): why a call is refused, and the number of each reason.
//
//   refusal_number    the number of a refusal in the table; reply 0, done, is none of them
//   refusal_block     the block that goes with it
//   answer_number     the number of an answer, whatever it holds: 0 where nothing is refused
//   offered           whether there is such an edition (document 02, E13)
//   highest           the highest level field of an edition
//
// Every call of the library that refuses answers one of these. specs/Replies.antt has the table, and says of a list of rules which
// of them gives the reply. Every call that takes a layout record or a level field takes the edition beside it.
#![tactic(auto)]

mod edition;

ghost use Rattle.std.specs.Prelude.{◌≡◌};
ghost use Rattle.replies.specs.Replies.{number, block, verdict_number};

pub use edition::{highest, offered};

// Why a call is refused, a case for each number of the table.
#[derive(Clone, Copy)]
pub enum Refusal {
    // 1: a level field above the highest.
    LevelTooHigh,
    // 2: a block with an empty message.
    EmptyMessage,
    // 3: a block with t > 0 longer than 2^m - 1 bits.
    BlockTooLong,
    // 4: the blocks need more bits than the page has.
    PageTooSmall,
    // 5: the lent page has another length than PAGE_SIZE.
    PageLength,
    // 6: another lent buffer has a wrong length.
    BufferLength,
    // 7: a number outside its range, or a choice that is not offered.
    OutOfRange,
    // 8: a remainder with a one above bit mt - 1.
    RemainderTooWide,
    // 9: no codeword within t flips, and the block that has none.
    Uncorrectable(u16),
    // 10: the claimed locations are wrong.
    ClaimWrong,
    // 11: a mark that does not lie in the page, or zero bits of a layout record that are not zero.
    MarkOutside,
}

// The number of a refusal in the table.
// By hand: two numbers go with a refusal, this one and its block, and a `u8::from(refusal)` would not say which is meant.
#[tactic(auto, unfolding(crate::specs::Replies::number))]
pub fn refusal_number(refusal: Refusal) -> u8
    ensures { result ≡ number refusal }
{
    match refusal {
        Refusal::LevelTooHigh => 1,
        Refusal::EmptyMessage => 2,
        Refusal::BlockTooLong => 3,
        Refusal::PageTooSmall => 4,
        Refusal::PageLength => 5,
        Refusal::BufferLength => 6,
        Refusal::OutOfRange => 7,
        Refusal::RemainderTooWide => 8,
        Refusal::Uncorrectable(_) => 9,
        Refusal::ClaimWrong => 10,
        Refusal::MarkOutside => 11,
    }
}

// The block that goes with a refusal: 0 except where a block has no codeword near.
// By hand: as above; and a pattern for the cases without a block would hide a case that is added later.
#[tactic(auto, unfolding(crate::specs::Replies::block))]
pub fn refusal_block(refusal: Refusal) -> u16
    ensures { result ≡ block refusal }
{
    match refusal {
        Refusal::LevelTooHigh => 0,
        Refusal::EmptyMessage => 0,
        Refusal::BlockTooLong => 0,
        Refusal::PageTooSmall => 0,
        Refusal::PageLength => 0,
        Refusal::BufferLength => 0,
        Refusal::OutOfRange => 0,
        Refusal::RemainderTooWide => 0,
        Refusal::Uncorrectable(at) => at,
        Refusal::ClaimWrong => 0,
        Refusal::MarkOutside => 0,
    }
}

// The number of an answer: 0 where nothing is refused.
#[tactic(auto, unfolding(crate::specs::Replies::verdict_number))]
pub fn answer_number<A: Drop>(answer: Result<A, Refusal>) -> u8
    ensures { result ≡ verdict_number answer }
{
    match answer {
        Ok(_) => 0,
        Err(refusal) => refusal_number(refusal),
    }
}
