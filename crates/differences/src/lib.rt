// Where two pages differ (document 02, E10).
//
//   next_from    the first position from one on at which two pages differ outside the mark
//
// Positions are counted as in Bits: position p of a page is byte p / 8, bit 7 - p mod 8. The tail counts, the mark's bytes do not. Equal
// bytes are passed over whole. specs/Differences.antt has the definitions; proofs/ the laws: Passing (positions passed over), Listing (asking
// for the next position again and again lists every one of them, ascending).
#![tactic(auto)]

ghost use Rattle.std.specs.Prelude.{◌≡◌, get_or, eqb};
ghost use Rattle.mark.specs.Mark.{marked};
ghost use Rattle.differences.specs.Differences.{differs, next};
ghost use Rattle.differences.specs.Passing.{Passed};

use bits::read::bit_at;
use mark::Mark;

// Whether a page position lies in the mark.
fn is_marked(mark: Mark, p: usize) -> bool
    ensures { result ≡ marked mark p }
{
    let start = 8 * mark.offset as usize;
    let end = 8 * (mark.offset as usize + mark.length as usize);
    if p < start {
        return false;
    }
    p < end
}

// Whether the pages differ at a position.
fn differs_at(mark: Mark, first: &[u8], second: &[u8], p: usize) -> bool
    ensures { result ≡ differs mark first.now second.now p }
{
    if is_marked(mark, p) {
        return false;
    }
    let a = bit_at(first, p);
    let b = bit_at(second, p);
    a != b
}

// Byte i of a page; 0 past its end.
fn byte_of(page: &[u8], i: usize) -> u8
    ensures { result ≡ get_or page.now i 0 }
{
    page.get(i).copied().unwrap_or(0)
}

// Whether byte i is the same in both pages.
fn same_byte(first: &[u8], second: &[u8], i: usize) -> bool
    ensures { result ≡ eqb (get_or first.now i 0) (get_or second.now i 0) }
{
    let a = byte_of(first, i);
    let b = byte_of(second, i);
    a == b
}

// How many positions from p on may be passed over: a byte that is the same in both pages, or one position; none where the pages differ at p.
fn passed(mark: Mark, first: &[u8], second: &[u8], p: usize) -> usize
    ensures { Passed mark first.now second.now p result }
{
    if p % 8 == 0 {
        if same_byte(first, second, p / 8) {
            return 8;
        }
    }
    if differs_at(mark, first, second, p) {
        return 0;
    }
    1
}

// The first position from `from` on at which two pages of `size` bytes differ outside the mark, if there is one. Of a page that is shorter the bits that it
// lacks count as 0; what stands behind `size` bytes is not looked at.
pub fn next_from(mark: Mark, size: u16, first: &[u8], second: &[u8], from: usize) -> Option<usize>
    ensures { result ≡ next mark size first.now second.now from }
{
    let end = 8 * size as usize;
    let mut p = from;
    while p < end {
        let step = passed(mark, first, second, p);
        if step == 0 {
            return Some(p);
        }
        p += step;
    }
    None
}
