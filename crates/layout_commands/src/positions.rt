// The command bits.
use arguments::{Choice, Options};
use layout::BitPlace;
use layout_plan::Plan;
use plans::Planned;
use say::Answer;
use streams::System;

// Which page of a dump is asked about, where one is.
fn page(out: &mut Answer, options: Options) {
    if let Some(page) = options.page {
        out.page_number(page);
    }
}

fn bit(out: &mut Answer, options: Options, place: BitPlace) {
    page(out, options);
    match place {
        BitPlace::InBlock { block, exponent } => out.put(format_args!(
            "reply 0: block {block}, exponent {exponent}\n",
        )),
        BitPlace::Tail => out.put("reply 0: tail\n"),
        BitPlace::Mark => out.put("reply 0: mark\n"),
    }
}

fn locate(out: &mut Answer, options: Options, record: &[u8; 12], position: u64) {
    let edition = options.edition();
    match page_bits::locate_bit(edition, record, position) {
        Ok(place) => bit(out, options, place),
        Err(refusal) => plans::refused(
            out,
            edition,
            record,
            refusal,
            "the page has no bit at this position\n",
        ),
    }
}

// The byte of a dump that is byte b of a page.
fn dump_byte(out: &mut Answer, options: Options, plan: Plan, b: u64) {
    if let Some(page) = options.page {
        let byte = text::plus(text::times(page, plan.size as u32), b);
        out.put(format_args!(", byte {byte} of the dump"));
    }
}

fn bit_at(out: &mut Answer, options: Options, plan: Plan, position: u64) {
    page(out, options);
    out.put(format_args!(
        "reply 0: bit {position} of the page, byte {} bit {}",
        position / 8,
        7 - position % 8,
    ));
    dump_byte(out, options, plan, position / 8);
    out.put("\n");
}

fn position(
    out: &mut Answer,
    options: Options,
    plan: Plan,
    record: &[u8; 12],
    block: u64,
    exponent: u64,
) {
    let edition = options.edition();
    match page_bits::bit_position(edition, record, block, exponent) {
        Ok(p) => bit_at(out, options, plan, p),
        Err(refusal) => plans::refused(
            out,
            edition,
            record,
            refusal,
            "the page has no such block, or the block no such exponent\n",
        ),
    }
}

// nandpage bits WORD0 WORD1 POSITION
fn bits_of_position<R: System>(rt: &R, out: &mut Answer, options: Options, record: &[u8; 12]) {
    if let Some(p) = arguments::number(rt, out, options.place(2), "POSITION") {
        locate(out, options, record, p);
    }
}

// nandpage bits WORD0 WORD1 BLOCK EXPONENT
fn bits_of_exponent<R: System>(
    rt: &R,
    out: &mut Answer,
    options: Options,
    plan: Plan,
    record: &[u8; 12],
) {
    let Some(block) = arguments::number(rt, out, options.place(2), "BLOCK") else {
        return;
    };
    let Some(exponent) = arguments::number(rt, out, options.place(3), "EXPONENT") else {
        return;
    };
    position(out, options, plan, record, block, exponent);
}

fn bits_of<R: System>(rt: &R, out: &mut Answer, options: Options) {
    let Some(Planned { words, plan }) = plans::plan_of_words(rt, out, options) else {
        return;
    };
    let record = words.record();
    if arguments::count(rt) == options.place(3) {
        bits_of_position(rt, out, options, &record);
    } else {
        bits_of_exponent(rt, out, options, plan, &record);
    }
}

// nandpage bits ..
#[inline(never)]
pub fn bits<R: System>(rt: &R, out: &mut Answer) {
    let allowed = [Choice::Mark, Choice::Edition, Choice::Page];
    let Some(options) = arguments::find_options(rt, out, &allowed) else {
        return;
    };
    let count = arguments::count(rt);
    if options.place(3) <= count && count <= options.place(4) {
        bits_of(rt, out, options);
    } else {
        out.error(
            rt,
            "usage: nandpage bits [--edition N] [--mark WORD2] [--page K] WORD0 WORD1 POSITION, or with BLOCK EXPONENT in place of POSITION",
        );
    }
}
