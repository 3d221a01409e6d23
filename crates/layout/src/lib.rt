// Layouts: whether a page can look so (document 01, "Layout words" and "Replies"; document 02, E7).
//
//   check_layout     is this layout acceptable? The layout, or the reason why not
//
// check_layout takes the edition and the layout record as bytes of any length, and asks nothing of its caller. The steps:
// 1. The crate `layout_record` takes the record apart into fields, and `layout_plan` works the sums out, which are kept with the layout.
// 2. rules.rt looks for the first rule that the layout breaks, and answers with the reason, block 0 before the later blocks.
// 3. answers.rt gives the case of document 01's table that a refusal is, and its number.
#![tactic(auto)]

mod answers;
pub mod rules;

ghost use Rattle.std.specs.Prelude.{◌≡◌};
ghost use Rattle.layout_plan.specs.Record.{words_of};
ghost use Rattle.layout.specs.Acceptance.{acceptance};
ghost use Rattle.layout.specs.declared.Refusal.TheVariants as refusal;

pub use answers::{answer_reply, refusal_reply};
use layout_plan::{Layout, layout_for, plan_of};
use layout_record::{fields_in, record_length};
use replies::offered;

// The rules that a layout must keep, by their replies: 1, 2, 3, 11 and 4.
#[derive(Clone, Copy)]
pub enum Rule {
    Level,
    Message,
    Length,
    Outside,
    Room,
}

// What breaks a rule: block 0, a later block, or the page.
#[derive(Clone, Copy)]
pub enum Kind {
    First,
    Later,
    Page,
}

// Why a layout is refused: the rule, what breaks it, and the two numbers that were compared.
#[derive(Clone, Copy)]
pub struct Reason {
    pub rule: Rule,
    pub kind: Kind,
    pub found: u64,
    pub limit: u64,
}

// Why a call answers nothing: the edition, the record's length, a broken rule, a number out of its range.
#[derive(Clone, Copy)]
pub enum Refusal {
    Edition,
    RecordLength,
    Rule(Reason),
    Range,
}

// A broken rule is why a call answers nothing.
impl From<Reason> for Refusal {
    ghost from_gives = { λ reason gives. gives ≡ refusal.Rule reason };

    fn from(reason: Reason) -> Refusal {
        Refusal::Rule(reason)
    }
}

// Where a page bit belongs: block and exponent, the tail, or the mark.
#[derive(Clone, Copy)]
pub enum BitPlace {
    InBlock { block: u64, exponent: u64 },
    Tail,
    Mark,
}

// Is this layout acceptable?
pub fn check_layout(edition: u64, words: &[u8]) -> Result<Layout, Refusal>
    ensures { result ≡ acceptance (words_of edition words.now) }
{
    if !offered(edition) {
        return Err(Refusal::Edition);
    }
    if !record_length(words.len()) {
        return Err(Refusal::RecordLength);
    }
    let fields = fields_in(edition, words);
    let layout = layout_for(fields);
    rules::finding_of(fields, plan_of(layout))?;
    Ok(layout)
}
