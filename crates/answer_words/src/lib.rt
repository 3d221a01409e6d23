// The answer word, which every call of the C interface returns but those that explain: four numbers in 64 bits.
#![tactic(auto)]

ghost use Rattle.std.specs.Prelude.{◌≡◌};
ghost use Rattle.replies.specs.Replies.{number, block};
ghost use Rattle.answer_words.specs.Answer.{answer_word, done_word, refused_word};

use replies::{Refusal, refusal_block, refusal_number};

// Reply in bits 0 to 7, its block in bits 8 to 23, kind in bits 24 to 31, value in bits 32 to 63.
#[tactic(auto, unfolding(crate::specs::Answer::answer_word))]
pub fn answer_word(reply: u8, block: u16, kind: u8, value: u32) -> u64
    ensures { result ≡ answer_word reply block kind value }
{
    reply as u64 + 0x100 * block as u64 + 0x1000000 * kind as u64 + 0x100000000 * value as u64
}

// The word of reply 0.
#[tactic(auto, unfolding(crate::specs::Answer::done_word))]
pub fn done(kind: u8, value: u32) -> u64
    ensures { result ≡ done_word kind value }
{
    answer_word(0, 0, kind, value)
}

// The word of a refusal, by its number and its block.
#[tactic(auto, unfolding(crate::specs::Answer::refused_word))]
pub fn refused(reply: u8, block: u16) -> u64
    ensures { result ≡ refused_word reply block }
{
    answer_word(reply, block, 0, 0)
}

// The word of a refusal of document 01's table.
#[tactic(auto, unfolding(crate::specs::Answer::refused_word))]
pub fn refused_by(refusal: Refusal) -> u64
    ensures { result ≡ refused_word (number refusal) (block refusal) }
{
    refused(refusal_number(refusal), refusal_block(refusal))
}
