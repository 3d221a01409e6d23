// The payload of a page, which callers lend as metadata and data apart: it is the one followed by the other, so its bit p is a bit of
// the metadata or, past those, one of the data.
//
//   copy_from    copies bits of the payload into a page
//   copy_to      copies bits of a page into the payload
//   fill         writes ones into the payload
//   flip         flips one bit of the payload
//
// A run of bits lies in the metadata, in the data, or across the seam. specs/Payload.antt says how the two parts and the whole go together.
#![tactic(auto)]

ghost use Rattle.std.specs.Prelude.{◌≡◌, not, [], ◌∷◌, ◌++◌, ◌+◌, ◌*◌, ◌≤◌, ◌<◌, length};
ghost use Rattle.bits.specs.Bits.{bit_of, run, ones, placed, Inside};
ghost use Rattle.payload.specs.Payload.{Small, Joined};

use bit_writing::copy::copy_bits;
use bit_writing::fill::fill_ones;
use bit_writing::write::flip_bit;

// Copies n bits of the payload, from its position `at` on, to a position of the page.
pub fn copy_from(
    metadata: &[u8],
    data: &[u8],
    at: usize,
    page: &mut [u8],
    position: usize,
    n: usize,
)
    requires { (length metadata.now < 256) × Inside (metadata.now ++ «data».now) at n × Inside page.old position n }
    ensures { page.new ≡ placed page.old position (run (bit_of (metadata.now ++ «data».now)) at n) }
{
    let split = 8 * metadata.len();
    if split <= at {
        copy_bits(data, at - split, page, position, n);
        return;
    }
    if at + n <= split {
        copy_bits(metadata, at, page, position, n);
        return;
    }
    let head = split - at;
    copy_bits(metadata, at, page, position, head);
    copy_bits(data, 0, page, position + head, n - head);
}

// Copies n bits of the page, from its position `at` on, to a position of the payload.
pub fn copy_to(
    page: &[u8],
    at: usize,
    metadata: &mut [u8],
    data: &mut [u8],
    position: usize,
    n: usize,
)
    requires inside { (Inside page.now at n) × (Small metadata.old «data».old) }
    requires n_bound { position + n ≤ 8 * (length metadata.old + length «data».old) }
    ensures { Joined metadata.old «data».old metadata.new «data».new
        (placed (metadata.old ++ «data».old) position (run (bit_of page.now) at n)) }
{
    let split = 8 * metadata.len();
    if position + n <= split {
        copy_bits(page, at, metadata, position, n);
        return;
    }
    if split <= position {
        copy_bits(page, at, data, position - split, n);
        return;
    }
    let head = split - position;
    copy_bits(page, at, metadata, position, head);
    copy_bits(page, at + head, data, 0, n - head);
}

// Writes n ones from a position of the payload on.
pub fn fill(metadata: &mut [u8], data: &mut [u8], position: usize, n: usize)
    requires { (Small metadata.old «data».old) × (position + n ≤ 8 * (length metadata.old + length «data».old)) }
    ensures { Joined metadata.old «data».old metadata.new «data».new
        (placed (metadata.old ++ «data».old) position (ones n)) }
{
    let split = 8 * metadata.len();
    if position + n <= split {
        fill_ones(metadata, position, n);
        return;
    }
    if split <= position {
        fill_ones(data, position - split, n);
        return;
    }
    let head = split - position;
    fill_ones(metadata, position, head);
    fill_ones(data, 0, n - head);
}

// Flips a bit of the payload.
pub fn flip(metadata: &mut [u8], data: &mut [u8], position: usize)
    requires { Small metadata.old «data».old }
    ensures { Joined metadata.old «data».old metadata.new «data».new
        (placed (metadata.old ++ «data».old) position (not (bit_of (metadata.old ++ «data».old) position) ∷ [])) }
{
    let split = 8 * metadata.len();
    if position < split {
        flip_bit(metadata, position);
    } else {
        flip_bit(data, position - split);
    }
}
