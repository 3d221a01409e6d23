// Claimed error locations of one block (document 01, "Claim"): a list of exponents in any order, whoever proposed them.
//
//   is_right     is a claim about the block at a position of the stream right?
//
// The list is looked at first: few enough, below n, no two alike. Then the claimed bits of a copy of the block are flipped, and that is
// divided by the generator. No decoder is asked.
#![tactic(auto)]

ghost use Rattle.std.specs.Prelude.{◌≡◌, ◌+◌, ◌*◌, ◌≤◌, ◌<◌, length};
ghost use Rattle.bits.specs.Decides.{Decides};
ghost use Rattle.bits.specs.Bits.{bit_of, run, Inside};
ghost use Rattle.mark.specs.Mark.{stream_bit, InStream};
ghost use Rattle.code.specs.Word.{flipped};
ghost use Rattle.code.specs.Code.{Codeword, Fits};
ghost use Rattle.page_theory.specs.Claim.{Right};
ghost use Rattle.page_plan.specs.Plans.{Stored};
ghost use Rattle.block_claim.specs.Claims.{Distinct, Within};

use bit_writing::write::flip_bit;
use division::runs::remainder_of;
use division_table::make_table;
use layout_plan::Shape;
use mark::Mark;
use page_runs::read::copy_word;
use remainder::coefficients::is_zero;

// Whether no two places of the list hold the same exponent.
fn distinct(claims: &[u16]) -> bool
    ensures { Decides result (Distinct claims.now) }
{
    for i in 0..claims.len() {
        for j in i + 1..claims.len() {
            if claims[i] == claims[j] {
                return false;
            }
        }
    }
    true
}

// Whether each exponent of the list is below n.
fn within(claims: &[u16], n: usize) -> bool
    ensures { Decides result (Within n claims.now) }
{
    for i in 0..claims.len() {
        if n <= claims[i] as usize {
            return false;
        }
    }
    true
}

// Flips the bits at the claimed exponents of the word of n bits at the start of the bytes.
fn flip_claims(claims: &[u16], bytes: &mut [u8], n: usize)
    requires { Within n claims.now × (n ≤ 8 * length bytes.old) }
    ensures { run (bit_of bytes.new) 0 n ≡ flipped (run (bit_of bytes.old) 0 n) claims.now }
{
    for i in 0..claims.len() {
        let exponent = claims[i] as usize;
        flip_bit(bytes, n - 1 - exponent);
    }
}

// Whether the block at a position of the stream is a codeword once the claimed bits are flipped, by its remainder. The block is copied to the
// start of `word`, and its bits are flipped there.
fn is_code_flipped(
    shape: Shape,
    mark: Mark,
    page: &[u8],
    position: usize,
    claims: &[u16],
    word: &mut [u8],
) -> bool
    requires { Stored shape × InStream mark page.now position shape.covered × Within shape.covered claims.now
        × Inside word.old 0 shape.covered }
    ensures { Decides result
        (Codeword shape.field shape.level
        (flipped (run (stream_bit mark page.now) position shape.covered) claims.now)) }
{
    let field = shape.field;
    let level = shape.level as usize;
    let n = shape.covered as usize;
    copy_word(mark, page, position, word, n);
    flip_claims(claims, word, n);
    let mut table = [0u8; 36864];
    make_table(field, level, &mut table);
    let remainder = remainder_of(field, level, &table, word, 0, n);
    is_zero(remainder)
}

// The same with bytes to copy the block to: a block with t > 0 has at most 16,383 bits. At t = 0 every word is a codeword.
fn leads_to_code(shape: Shape, mark: Mark, page: &[u8], position: usize, claims: &[u16]) -> bool
    requires { Stored shape × Fits shape.field shape.level shape.covered × InStream mark page.now position shape.covered
        × Within shape.covered claims.now }
    ensures { Decides result
        (Codeword shape.field shape.level
        (flipped (run (stream_bit mark page.now) position shape.covered) claims.now)) }
{
    if shape.level == 0 {
        return true;
    }
    let mut word = [0u8; 2048];
    is_code_flipped(shape, mark, page, position, claims, &mut word)
}

// Whether a claim about the block at a position of the stream is right.
pub fn is_right(shape: Shape, mark: Mark, page: &[u8], position: usize, claims: &[u16]) -> bool
    requires { Stored shape × Fits shape.field shape.level shape.covered × InStream mark page.now position shape.covered }
    ensures { Decides result
        (Right shape.field shape.level (run (stream_bit mark page.now) position shape.covered) claims.now) }
{
    let level = shape.level as usize;
    if level < claims.len() {
        return false;
    }
    let n = shape.covered as usize;
    if !within(claims, n) {
        return false;
    }
    if !distinct(claims) {
        return false;
    }
    leads_to_code(shape, mark, page, position, claims)
}
