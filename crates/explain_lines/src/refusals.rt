// Why a question about a layout or a block is refused.
use crate::rules;
use explain::{About, Why};
use layout_plan::Fields;
use replies::refusal_number;
use say::Answer;

pub fn accepted(out: &mut Answer) {
    out.put("reply 0: this layout is accepted, it breaks none of the rules 1, 2, 3, 11 and 4\n");
}

// A file is not read further than one byte beyond the length that is wanted.
fn page_length(out: &mut Answer, found: u64, limit: u64) {
    if limit < found {
        out.put(format_args!("the page has more than {limit} bytes"));
    } else {
        out.put(format_args!("the page has {found} bytes"));
    }
    out.put(format_args!(", and the layout says {limit}\n"));
    out.put("next: see whether the layout is the page's; of a dump, --page K asks about page K\n");
}

// Why it is refused, with the two numbers that were compared. `fields` are those of the layout that was asked about. The tool asks with no
// length of a record or of a list and with no position that is refused.
pub fn refused(out: &mut Answer, fields: Fields, why: Why) {
    let Why {
        about,
        found,
        limit,
        ..
    } = why;
    out.reply(refusal_number(why.refusal));
    match about {
        About::First => rules::broken(out, fields, "block 0", why),
        About::Later => rules::broken(out, fields, "each later block", why),
        About::Page => rules::broken(out, fields, "the page", why),
        About::Edition => {
            out.put(format_args!("there is no edition {found}, only 1 and {limit}\n"))
        }
        About::Lent => page_length(out, found, limit),
        About::Block => out.put(format_args!(
            "there is no block {found}, the page has {limit}, counted from 0\n"
        )),
        _ => out.put(format_args!("the numbers compared are {found} and {limit}\n")),
    }
}
