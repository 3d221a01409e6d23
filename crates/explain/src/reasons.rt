// Why a layout record is refused, in the form of all refusals.
ghost use Rattle.std.specs.Prelude.{◌≡◌};
ghost use Rattle.explain.specs.Reasons.{about_kind, rule_why, why_of};

use crate::{About, Why};
use layout::{Kind, Reason, Refusal};

// What breaks a rule.
impl From<Kind> for About {
    ghost from_gives = { λ kind gives. gives ≡ about_kind kind };

    #[tactic(auto, unfolding(crate::specs::Reasons::about_kind))]
    fn from(kind: Kind) -> About {
        match kind {
            Kind::First => About::First,
            Kind::Later => About::Later,
            Kind::Page => About::Page,
        }
    }
}

// A broken rule, with the two numbers that the rule compares.
#[tactic(auto, unfolding(crate::specs::Reasons::rule_why, crate::specs::Reasons::why))]
fn rule_why(reason: Reason) -> Why
    ensures { result ≡ rule_why reason }
{
    Why {
        refusal: replies::Refusal::from(reason.rule),
        about: About::from(reason.kind),
        found: reason.found,
        limit: reason.limit,
    }
}

// Why a record of so many bytes is refused under an edition.
pub fn why_refused(edition: u64, length: usize, refusal: Refusal) -> Why
    ensures { result ≡ why_of edition length refusal }
{
    match refusal {
        Refusal::Edition => Why {
            refusal: replies::Refusal::OutOfRange,
            about: About::Edition,
            found: edition,
            limit: 2,
        },
        Refusal::RecordLength => Why {
            refusal: replies::Refusal::BufferLength,
            about: About::Record,
            found: length as u64,
            limit: 8,
        },
        Refusal::Rule(reason) => rule_why(reason),
        Refusal::Range => Why {
            refusal: replies::Refusal::OutOfRange,
            about: About::Position,
            found: 0,
            limit: 0,
        },
    }
}
