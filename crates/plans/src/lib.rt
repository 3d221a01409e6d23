// The plan of a page under the layout words of the arguments, and why a layout is refused.
#![tactic(auto)]

use arguments::{LayoutWords, Options};
use layout::{Kind, Reason, Refusal, Rule};
use layout_plan::{Fields, Plan};
use say::Answer;
use streams::System;

// What a rule is about.
fn name(kind: Kind) -> &'static str {
    match kind {
        Kind::First => "block 0",
        Kind::Later => "each later block",
        Kind::Page => "the page",
    }
}

// Why a mark is refused. The numbers that were compared are its end and PAGE_SIZE or, where it ends in the page, the zero bits and 0.
fn outside(out: &mut Answer, fields: Fields, found: u64, limit: u64) {
    let mark = fields.mark;
    let end = mark.offset as u64 + mark.length as u64;
    if (fields.page as u64) < end {
        out.put(format_args!(
            " has {limit} bytes, and mark offset and mark length come to {found}\n",
        ));
    } else {
        out.put(format_args!(
            " has {found} in the zero bits after the mark length, and they have to be {limit}\n",
        ));
    }
}

// Why the blocks are refused: they need more bits than the page has beside the mark.
fn room(out: &mut Answer, fields: Fields, found: u64, limit: u64) {
    let beside = if fields.mark.length == 0 {
        ""
    } else {
        " beside the mark"
    };
    out.put(format_args!(" has {limit} bits{beside}, and the blocks need {found}\n",));
}

// Why a layout is refused, in a sentence with the two numbers that were compared.
fn reason(out: &mut Answer, fields: Fields, reason: Reason) {
    let found = reason.found;
    let limit = reason.limit;
    out.put(name(reason.kind));
    match reason.rule {
        Rule::Level => out.put(format_args!(
            " has the level field {found}, and the largest is {limit}\n",
        )),
        Rule::Message => out.put(" has an empty message\n"),
        Rule::Length => out.put(format_args!(
            " has {found} bits, and its field allows at most {limit}\n",
        )),
        Rule::Outside => outside(out, fields, found, limit),
        Rule::Room => room(out, fields, found, limit),
    }
}

// A refusal of a layout, a page bit or a code bit.
pub fn refused(out: &mut Answer, edition: u64, record: &[u8; 12], refusal: Refusal, range: &str) {
    out.reply(layout::refusal_reply(refusal));
    match refusal {
        Refusal::Edition => out.put("there is no such edition, only 1 and 2\n"),
        Refusal::RecordLength => out.put("the layout record has not eight or twelve bytes\n"),
        Refusal::Rule(r) => reason(out, layout_record::fields_of(edition, record), r),
        Refusal::Range => out.put(range),
    }
}

// The words of a layout and the plan of a page under it.
#[derive(Clone, Copy)]
pub struct Planned {
    pub words: LayoutWords,
    pub plan: Plan,
}

// The plan of a page under the layout words of the arguments: none where an error or a refusal was printed.
pub fn plan_of_words<R: System>(rt: &R, out: &mut Answer, options: Options) -> Option<Planned> {
    let words = options.layout_words(rt, out)?;
    let record = words.record();
    match layout::check_layout(words.edition, &record) {
        Ok(l) => Some(Planned {
            words: words,
            plan: layout_plan::plan_of(l),
        }),
        Err(refusal) => {
            refused(out, words.edition, &record, refusal, "\n");
            None
        }
    }
}
