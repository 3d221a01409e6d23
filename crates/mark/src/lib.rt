// The factory's mark (document 02, E7): bytes of a page that the bit stream leaves out.
//
//   near     how many bits of a run of the stream lie before the mark
//   place    the page position of a stream position
//
// A run of stream bits is at most two runs of page bits: those before the mark, where they stand, and the others, further on by the
// mark's bits. specs/Mark.antt has the definitions; proofs/ the laws: Places (the stream misses exactly the mark), Runs (the two runs),
// Putting (a word put into the stream).
#![tactic(auto)]

ghost use Rattle.std.specs.Prelude.{◌≡◌, ◌+◌, ◌*◌, ◌<◌};
ghost use Rattle.mark.specs.Mark.{near, place};

// Where the mark starts in the page and how long it is, in bytes. Where the length is 0 there is none.
#[derive(Clone, Copy)]
pub struct Mark {
    pub offset: u16,
    pub length: u8,
}

// How many of the n stream bits from position `at` on lie before the mark.
pub fn near(mark: Mark, at: usize, n: usize) -> usize
    requires { at + n < 18446744073709551616 }
    ensures { result ≡ near mark at n }
{
    if mark.length == 0 {
        return n;
    }
    let start = 8 * mark.offset as usize;
    if at + n <= start {
        return n;
    }
    if start <= at {
        return 0;
    }
    start - at
}

// The page position of a stream position.
pub fn place(mark: Mark, position: usize) -> usize
    requires { position + 8 * mark.length < 18446744073709551616 }
    ensures { result ≡ place mark position }
{
    if position < 8 * mark.offset as usize {
        return position;
    }
    position + 8 * mark.length as usize
}
