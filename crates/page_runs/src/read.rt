// Reading runs of the stream: their zeros counted, their bits copied.
ghost use Rattle.std.specs.Prelude.{◌≡◌, ◌++◌, ◌+◌, ◌*◌, ◌≤◌, length};
ghost use Rattle.bits.specs.Bits.{run, placed, Inside};
ghost use Rattle.mark.specs.Mark.{stream_bit, InStream};
ghost use Rattle.code.specs.Word.{zeros_to};
ghost use Rattle.payload.specs.Payload.{Small, Joined};

use bit_writing::copy::copy_bits;
use mark::{Mark, near, place};
use payload::copy_to;
use zeros::zeros_to;

// The zeros of n bits of the stream from position `at` on, counted no further than a limit.
pub fn zeros_in(mark: Mark, page: &[u8], at: usize, n: usize, limit: usize) -> usize
    requires { InStream mark page.now at n }
    ensures { result ≡ zeros_to limit (run (stream_bit mark page.now) at n) }
{
    let first = near(mark, at, n);
    if first == n {
        return zeros_to(page, at, n, limit);
    }
    let beyond = place(mark, at + first);
    let found = zeros_to(page, at, first, limit);
    let more = zeros_to(page, beyond, n - first, limit - found);
    found + more
}

// Copies n bits of the stream, from its position `at` on, to the start of a word.
pub fn copy_word(mark: Mark, page: &[u8], at: usize, word: &mut [u8], n: usize)
    requires { (InStream mark page.now at n) × (Inside word.old 0 n) }
    ensures { word.new ≡ placed word.old 0 (run (stream_bit mark page.now) at n) }
{
    let first = near(mark, at, n);
    if first == n {
        copy_bits(page, at, word, 0, n);
        return;
    }
    let beyond = place(mark, at + first);
    copy_bits(page, at, word, 0, first);
    copy_bits(page, beyond, word, first, n - first);
}

// Copies n bits of the stream, from its position `at` on, to a position of the payload.
pub fn copy_out(
    mark: Mark,
    page: &[u8],
    at: usize,
    metadata: &mut [u8],
    data: &mut [u8],
    position: usize,
    n: usize,
)
    requires in_stream { (InStream mark page.now at n) × (Small metadata.old «data».old) }
    requires n_bound { position + n ≤ 8 * (length metadata.old + length «data».old) }
    ensures { Joined metadata.old «data».old metadata.new «data».new
        (placed (metadata.old ++ «data».old) position (run (stream_bit mark page.now) at n)) }
{
    let first = near(mark, at, n);
    if first == n {
        copy_to(page, at, metadata, data, position, n);
        return;
    }
    let beyond = place(mark, at + first);
    copy_to(page, at, metadata, data, position, first);
    copy_to(page, beyond, metadata, data, position + first, n - first);
}
