// Document 01's reply of each answer.
ghost use Rattle.std.specs.Prelude.{◌≡◌};
ghost use Rattle.layout.specs.Acceptance.{rule_refusal, refusal_of, refusal_reply};
ghost use Rattle.layout.specs.Answers.{answer_reply};

use crate::{Refusal, Rule};
use replies::refusal_number;

// The case of document 01's table that a broken rule is.
impl From<Rule> for replies::Refusal {
    ghost from_gives = { λ rule gives. gives ≡ rule_refusal rule };

    #[tactic(auto, unfolding(crate::specs::Acceptance::rule_refusal))]
    fn from(rule: Rule) -> replies::Refusal {
        match rule {
            Rule::Level => replies::Refusal::LevelTooHigh,
            Rule::Message => replies::Refusal::EmptyMessage,
            Rule::Length => replies::Refusal::BlockTooLong,
            Rule::Outside => replies::Refusal::MarkOutside,
            Rule::Room => replies::Refusal::PageTooSmall,
        }
    }
}

// The case of document 01's table that a refusal is.
impl From<Refusal> for replies::Refusal {
    ghost from_gives = { λ refusal gives. gives ≡ refusal_of refusal };

    #[tactic(auto, unfolding(crate::specs::Acceptance::refusal_of))]
    fn from(refusal: Refusal) -> replies::Refusal {
        match refusal {
            Refusal::Edition => replies::Refusal::OutOfRange,
            Refusal::RecordLength => replies::Refusal::BufferLength,
            Refusal::Rule(reason) => replies::Refusal::from(reason.rule),
            Refusal::Range => replies::Refusal::OutOfRange,
        }
    }
}

// The reply of a refusal.
#[tactic(auto, unfolding(crate::specs::Acceptance::refusal_reply))]
pub fn refusal_reply(refusal: Refusal) -> u8
    ensures { result ≡ refusal_reply refusal }
{
    refusal_number(replies::Refusal::from(refusal))
}

// The reply of an answer, to a layout record or about a bit: 0 where nothing is refused.
#[tactic(auto, unfolding(crate::specs::Answers::answer_reply))]
pub fn answer_reply<A: Drop>(answer: Result<A, Refusal>) -> u8
    ensures { result ≡ answer_reply answer }
{
    match answer {
        Ok(_) => 0,
        Err(refusal) => refusal_reply(refusal),
    }
}
