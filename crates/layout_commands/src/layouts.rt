// The command layout.
ghost use Rattle.std.specs.Prelude.{◌+◌, ◌<◌};

use arguments::Choice;
use field::Field;
use layout_plan::{BlockFields, Fields, Plan, Shape};
use mark::Mark;
use plans::Planned;
use say::Answer;
use streams::System;

// The field GF of a layout word.
fn gf(field: Field) -> u64 {
    match field {
        Field::Thirteen => 0,
        Field::Fourteen => 1,
    }
}

// m: the degree of the field.
fn degree(field: Field) -> u64 {
    match field {
        Field::Thirteen => 13,
        Field::Fourteen => 14,
    }
}

// The fields of the third word, where it is not 0.
fn third_word(out: &mut Answer, mark: Mark) {
    let offset = mark.offset as u64;
    let length = mark.length as u64;
    if 0 < offset + length {
        out.put(format_args!("word 2: mark offset {offset}, mark length {length}\n"));
    }
}

// The fields of the words, by their names in document 01.
fn all_words(out: &mut Answer, fields: Fields) {
    let first = fields.first;
    let later = fields.later;
    let mark = fields.mark;
    let gf0 = first.gf;
    let gfn = later.gf;
    out.put(format_args!(
        "word 0: NBLOCKS {}, META_SIZE {}, ECC0 {}, GF {}, DATA0_SIZE {}\n\
        word 1: PAGE_SIZE {}, ECCN {}, GF {}, DATAN_SIZE {}\n",
        fields.nblocks,
        fields.metadata,
        first.ecc,
        gf(gf0),
        first.units,
        fields.page,
        later.ecc,
        gf(gfn),
        later.units
    ));
    third_word(out, mark);
}

// The parity bits of a block: those that it covers without its message.
fn parity(shape: Shape) -> u64 {
    shape.covered.saturating_sub(shape.message) as u64
}

// What a block is made of.
fn shape(out: &mut Answer, shape: Shape) {
    let field = shape.field;
    let message = shape.message as u64;
    if shape.level == 0 {
        out.put(format_args!(": message {message}, no ECC\n"));
        return;
    }
    out.put(format_args!(
        ": message {message}, parity {}, corrects {} bits (m = {})\n",
        parity(shape),
        shape.level,
        degree(field)
    ));
}

// Whether so many stream bits from a position on stand on both sides of the mark.
fn is_around(mark: Mark, start: usize, covered: usize) -> bool
    requires { start + covered < 18446744073709551616 }
{
    let before = mark::near(mark, start, covered);
    0 < before && before < covered
}

fn block(out: &mut Answer, plan: Plan, b: u16) {
    let mark = plan.mark;
    let start = layout_plan::block_start(plan, b);
    let covered = layout_plan::block_covered(plan, b);
    out.put(format_args!(
        "block {b}: starts at bit {}, {covered} bits",
        mark::place(mark, start)
    ));
    if is_around(mark, start, covered) {
        out.put(" around the mark");
    }
    shape(out, layout_plan::block_shape(plan, b));
}

fn blocks(out: &mut Answer, plan: Plan) {
    for b in 0..plan.blocks {
        block(out, plan, b);
    }
}

// The bytes that the bit stream leaves out, where there are any.
fn left_out(out: &mut Answer, plan: Plan) {
    let first = plan.mark.offset as u64;
    let length = plan.mark.length as u64;
    if 0 < length {
        out.put(format_args!(
            "mark: bytes {first} to {}, which leaves {} bits to the blocks and the tail\n",
            first + length - 1,
            layout_plan::page_room(plan)
        ));
    }
}

// The bits of the page that no block covers and that are not in the mark.
fn tail(out: &mut Answer, plan: Plan) {
    let used = plan.used as u64;
    let all = layout_plan::page_room(plan);
    if all < used {
        out.put(format_args!("used: {used} bits\n"));
        return;
    }
    out.put(format_args!("used: {used} bits, tail: {} bits\n", all - used));
}

fn accepted(out: &mut Answer, edition: u64, record: &[u8; 12], plan: Plan) {
    out.put("reply 0: this layout is accepted\n");
    all_words(out, layout_record::fields_of(edition, record));
    out.put(format_args!(
        "page: {} bytes in {} blocks, of them {} metadata and {} data\n",
        plan.size, plan.blocks, plan.metadata, plan.data
    ));
    left_out(out, plan);
    blocks(out, plan);
    tail(out, plan);
}

// nandpage layout [--edition N] [--mark WORD2] WORD0 WORD1
#[inline(never)]
pub fn layout<R: System>(rt: &R, out: &mut Answer) {
    let allowed = [Choice::Mark, Choice::Edition];
    let Some(options) = arguments::find_options(rt, out, &allowed) else {
        return;
    };
    if !arguments::are(
        rt,
        out,
        options.at,
        2,
        "usage: nandpage layout [--edition N] [--mark WORD2] WORD0 WORD1",
    ) {
        return;
    }
    if let Some(Planned { words, plan }) = plans::plan_of_words(rt, out, options) {
        accepted(out, words.edition, &words.record(), plan);
    }
}
