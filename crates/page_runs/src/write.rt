// Writing runs of the stream. The mark's bits and every other bit of the stream are left as they were.
ghost use Rattle.std.specs.Prelude.{◌≡◌, ◌++◌, ◌≤◌, ◌<◌, length};
ghost use Rattle.bits.specs.Bits.{bit_of, run, ones, digits, Inside};
ghost use Rattle.mark.specs.Mark.{put, InStream};
ghost use Rattle.code.specs.Register.{register};

use bit_writing::copy::copy_bits;
use bit_writing::fill;
use mark::{Mark, near, place};
use payload::copy_from;
use register_digits::place_parity;
use remainder::Register;

// Copies n bits of the payload, from its position `at` on, to a position of the stream.
pub fn copy_in(
    metadata: &[u8],
    data: &[u8],
    at: usize,
    mark: Mark,
    page: &mut [u8],
    position: usize,
    n: usize,
)
    requires { (length metadata.now < 256) × (Inside (metadata.now ++ «data».now) at n) × (InStream mark page.old position n) }
    ensures { page.new ≡ put mark page.old position (run (bit_of (metadata.now ++ «data».now)) at n) }
{
    let first = near(mark, position, n);
    if first == n {
        copy_from(metadata, data, at, page, position, n);
        return;
    }
    let beyond = place(mark, position + first);
    copy_from(metadata, data, at, page, position, first);
    copy_from(metadata, data, at + first, page, beyond, n - first);
}

// Copies the first n bits of a word to a position of the stream.
fn put_word(word: &[u8], mark: Mark, page: &mut [u8], position: usize, n: usize)
    requires { (Inside word.now 0 n) × (InStream mark page.old position n) }
    ensures { page.new ≡ put mark page.old position (run (bit_of word.now) 0 n) }
{
    let first = near(mark, position, n);
    if first == n {
        copy_bits(word, 0, page, position, n);
        return;
    }
    let beyond = place(mark, position + first);
    copy_bits(word, 0, page, position, first);
    copy_bits(word, first, page, beyond, n - first);
}

// Puts the coefficients below x^degree at a position of the stream, the highest first.
pub fn put_parity(state: Register, degree: usize, mark: Mark, page: &mut [u8], position: usize)
    requires { (degree ≤ 896) × (InStream mark page.old position degree) }
    ensures { page.new ≡ put mark page.old position (digits (register state.words) degree) }
{
    let first = near(mark, position, degree);
    if first == degree {
        place_parity(state, degree, page, position);
        return;
    }
    let mut word = [0u8; 112];
    place_parity(state, degree, &mut word, 0);
    put_word(&word, mark, page, position, degree);
}

// Writes n ones from a position of the stream on.
pub fn fill_ones(mark: Mark, page: &mut [u8], position: usize, n: usize)
    requires { InStream mark page.old position n }
    ensures { page.new ≡ put mark page.old position (ones n) }
{
    let first = near(mark, position, n);
    if first == n {
        fill::fill_ones(page, position, n);
        return;
    }
    let beyond = place(mark, position + first);
    fill::fill_ones(page, position, first);
    fill::fill_ones(page, beyond, n - first);
}
