// Writing: words put at any position of a page, every other bit left as it was. What would lie past the end is lost.
ghost use Rattle.std.specs.Prelude.{◌≡◌, not, [], ◌∷◌, ◌+◌, ◌*◌, ◌/◌, ◌%◌, ◌^◌, ◌≤◌, ◌<◌};
ghost use Rattle.bits.specs.Bits.{bit_of, digits, placed};

use bits::read::bit_at;

// The byte x with the n bits above its k lowest replaced by the number v.
fn replaced(x: u8, k: usize, n: usize, v: u8) -> u8
    requires { (k + n ≤ 8) × (v < 2 ^ n) }
    ensures { result ≡ x / 2 ^ (k + n) * 2 ^ (k + n) + (v * 2 ^ k + x % 2 ^ k) }
{
    let byte = x as u32;
    let above = byte >> (k + n) << (k + n);
    let within = (v as u32) << k;
    let below = byte % (1 << k);
    (above + (within + below)) as u8
}

// Puts the n lowest bits of the number v, which has no others, at a position, inside one byte.
pub fn put_number(page: &mut [u8], position: usize, n: usize, v: u8)
    requires { (position % 8 + n ≤ 8) × (v < 2 ^ n) }
    ensures { page.new ≡ placed page.old position (digits v n) }
{
    let i = position / 8;
    if i < page.len() {
        page[i] = replaced(page[i], 8 - position % 8 - n, n, v);
    }
}

// Turns the bit at position p over.
pub fn flip_bit(page: &mut [u8], p: usize)
    ensures { page.new ≡ placed page.old p (not (bit_of page.old p) ∷ []) }
{
    let b = bit_at(page, p);
    put_number(page, p, 1, 1 - b);
}
