// Explanations as the C interface hands them out: each in one word of 64 bits (document 02, E2).
//
//   layout_word    the answer to a layout record
//   block_word     the answer to one block of a page
//   place_word     the answer to a page position
//
// A refusal is its reply, what it is about, and the two numbers that were compared, 24 bits each; a number that was handed in and is larger
// shows as the largest. specs/Words.antt says where each number stands.
#![tactic(auto)]

ghost use Rattle.std.specs.Prelude.{◌≡◌, ◌≤◌};
ghost use Rattle.explain_words.specs.Words.{shown_to, explanation_word, about_number, part_number, why_word, layout_word, finding_word, block_word, spot_word, place_word};

use explain::{About, Part, Place, Why};
use page_explain::BlockFinding;
use replies::refusal_number;

// A number where there is room for no larger one than `most`.
fn shown_to(most: u64, n: u64) -> u64
    ensures eq { result ≡ shown_to most n }
    ensures small { result ≤ most }
{
    n.min(most)
}

// Reply in bits 0 to 7, what it is about in bits 8 to 15, the first number in bits 16 to 39, the second in bits 40 to 63.
fn explanation_word(reply: u8, about: u8, found: u64, limit: u64) -> u64
    ensures { result ≡ explanation_word reply about found limit }
{
    let first = shown_to(0xFFFFFF, found);
    let second = shown_to(0xFFFFFF, limit);
    reply as u64 + 0x100 * about as u64 + 0x10000 * first + 0x10000000000 * second
}

// The number of what a refusal is about.
// By hand: a number for each kind, which the C interface hands out in a word (rudderfig_explain_layout).
fn about_number(about: About) -> u8
    ensures { result ≡ about_number about }
{
    match about {
        About::Edition => 1,
        About::Record => 2,
        About::First => 3,
        About::Later => 4,
        About::Page => 5,
        About::Lent => 6,
        About::List => 7,
        About::Block => 8,
        About::Position => 9,
    }
}

// The number of a part of a page.
// By hand: a number for each kind, which the C interface hands out in a word (rudderfig_explain_bit).
fn part_number(part: Part) -> u8
    ensures { result ≡ part_number part }
{
    match part {
        Part::Metadata => 1,
        Part::Data => 2,
        Part::Parity => 3,
        Part::Tail => 4,
        Part::Mark => 5,
    }
}

// The word of a refusal.
fn why_word(why: Why) -> u64
    ensures { result ≡ why_word why }
{
    let refusal = why.refusal;
    let about = why.about;
    let found = why.found;
    let limit = why.limit;
    explanation_word(refusal_number(refusal), about_number(about), found, limit)
}

// The word of the answer to a layout record: 0 where it is accepted.
pub fn layout_word(answer: Result<(), Why>) -> u64
    ensures { result ≡ layout_word answer }
{
    match answer {
        Ok(()) => 0,
        Err(why) => why_word(why),
    }
}

// The word of what is found of one block: its flips or its zeros, and t; of a ruined block reply 9, its number, and t.
fn finding_word(finding: BlockFinding) -> u64
    ensures { result ≡ finding_word finding }
{
    match finding {
        BlockFinding::Flips { count, level } => explanation_word(0, 0, count as u64, level as u64),
        BlockFinding::Erased { zeros, level } => explanation_word(0, 1, zeros as u64, level as u64),
        BlockFinding::Ruined { block, level } => explanation_word(9, 8, block as u64, level as u64),
    }
}

// The word of the answer to one block.
pub fn block_word(answer: Result<BlockFinding, Why>) -> u64
    ensures { result ≡ block_word answer }
{
    match answer {
        Ok(finding) => finding_word(finding),
        Err(why) => why_word(why),
    }
}

// Part in bits 8 to 15, block in bits 16 to 23, bit of the byte in bits 24 to 31, byte of the page in bits 32 to 47, byte of metadata or
// data in bits 48 to 63.
fn spot_word(place: Place) -> u64
    ensures { result ≡ spot_word place }
{
    let part = place.part;
    let kind = part_number(part) as u64;
    let block = shown_to(0xFF, place.block as u64);
    let bit = shown_to(0xFF, place.bit);
    let byte = shown_to(0xFFFF, place.byte);
    let index = shown_to(0xFFFF, place.index);
    0x100 * kind + 0x10000 * block + 0x1000000 * bit + 0x100000000 * byte + 0x1000000000000 * index
}

// The word of the answer to a page position.
pub fn place_word(answer: Result<Place, Why>) -> u64
    ensures { result ≡ place_word answer }
{
    match answer {
        Ok(place) => spot_word(place),
        Err(why) => why_word(why),
    }
}
