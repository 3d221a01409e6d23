// The rule that a layout breaks. `found` and `limit` are the two numbers that were compared.
use explain::{About, Why};
use layout_plan::Fields;
use replies::{Refusal, refusal_number};
use say::Answer;

fn message(out: &mut Answer, about: About, found: u64, limit: u64) {
    out.put(format_args!("its message has {found} bits, and at least {limit} is needed\n"));
    out.put(match about {
        About::First => "next: give it data (DATA0_SIZE) or metadata (META_SIZE)\n",
        _ => "next: give it data (DATAN_SIZE), or set NBLOCKS to 0 if there is no later block\n",
    });
}

// The field m = 13 allows 8191 bits, the larger one 16383.
fn length(out: &mut Answer, found: u64, limit: u64) {
    out.put(format_args!("it needs {found} bits, and its field allows {limit}\n"));
    out.put("next: give it less data or a lower level");
    if limit < 16383 {
        out.put(", or GF 1, which allows 16383 bits");
    }
    out.put("\n");
}

fn room(out: &mut Answer, fields: Fields, found: u64, limit: u64) {
    out.put(format_args!("its blocks need {found} bits, and it has {limit}"));
    if 0 < fields.mark.length {
        out.put(" beside the mark");
    }
    out.put("\nnext: see whether PAGE_SIZE is right; ");
    out.put("if it is, take fewer blocks, less data or a lower level\n");
}

// The mark's end and PAGE_SIZE were compared or, where it ends in the page, the zero bits and 0.
fn outside(out: &mut Answer, fields: Fields, found: u64, limit: u64) {
    let mark = fields.mark;
    let end = mark.offset as u64 + mark.length as u64;
    if (fields.page as u64) < end {
        out.put(format_args!("mark offset and mark length come to {found} bytes, "));
        out.put(format_args!("and it has {limit}\n"));
        out.put("next: see whether the third layout word is right; ");
        out.put("the mark has to lie in the page\n");
        return;
    }
    out.put(format_args!("the zero bits after the mark length are {found}, "));
    out.put(format_args!("and have to be {limit}\n"));
    out.put("next: see whether the third layout word is right; ");
    out.put("its last two digits have to be 00\n");
}

// The rule that `what` breaks, and what can be done.
pub fn broken(out: &mut Answer, fields: Fields, what: &str, why: Why) {
    let Why {
        refusal,
        about,
        found,
        limit,
    } = why;
    out.put(format_args!("{what} breaks rule {}: ", refusal_number(refusal)));
    match refusal {
        Refusal::LevelTooHigh => {
            out.put(format_args!("its level field is {found}, and the largest is {limit}\n"));
            out.put("next: take a lower level, ");
            out.put("or --edition 2 if the part is one of the second edition\n");
        }
        Refusal::EmptyMessage => message(out, about, found, limit),
        Refusal::BlockTooLong => length(out, found, limit),
        Refusal::PageTooSmall => room(out, fields, found, limit),
        _ => outside(out, fields, found, limit),
    }
}
