// What a comparison of two readings of one page shows of a block (document 02, E10): its flips in the first, in the second, and the change.
//
//   block_line     the line of a block, by its counts in the two pages as looking writes them
//   difference     the change: second minus first, with its sign
//   magnitude      a change without its sign
//
// specs/Lines.antt has the definitions; proofs/Showing.antt the laws: the change is exact, and the line by two counts is the one that the outcomes of
// the two blocks say.
#![tactic(auto)]

ghost use Rattle.std.specs.Prelude.{◌≡◌, true, false, nat_abs};
ghost use Rattle.changes.specs.Lines.{flips_of, difference, change_of, line_of};

// A line of the report: of a page the block's flips or, where it is erased, its zeros, and none where it is ruined; and the change from the first
// page to the second, none where the block is ruined in one of them.
#[derive(Clone, Copy)]
pub struct BlockLine {
    pub first: Option<u8>,
    pub second: Option<u8>,
    pub change: Option<i16>,
}

// Whether a count is that of a ruined block.
fn is_ruined(count: u8) -> bool
    ensures { (result ≡ true → count ≡ 255) × (result ≡ false → count ≡ 255 → ⊥) }
{
    count == 255
}

// What is shown of a block by its count.
fn flips_of(count: u8) -> Option<u8>
    ensures { result ≡ flips_of count }
{
    if is_ruined(count) {
        return None;
    }
    if count < 128 {
        return Some(count);
    }
    Some(count - 128)
}

// Second minus first, which may be negative.
pub fn difference(first: u8, second: u8) -> i16
    ensures { result ≡ difference first second }
{
    second as i16 - first as i16
}

// A change without its sign.
pub fn magnitude(change: i16) -> u16
    ensures { result ≡ nat_abs change }
{
    change.unsigned_abs()
}

// The change between two pages.
fn change_of(first: Option<u8>, second: Option<u8>) -> Option<i16>
    ensures { result ≡ change_of first second }
{
    Some(difference(first?, second?))
}

// What the report shows of a block by its counts in the two pages, as looking writes them.
pub fn block_line(first: u8, second: u8) -> BlockLine
    ensures { result ≡ line_of first second }
{
    let a = flips_of(first);
    let b = flips_of(second);
    let change = change_of(a, b);
    BlockLine {
        first: a,
        second: b,
        change: change,
    }
}
