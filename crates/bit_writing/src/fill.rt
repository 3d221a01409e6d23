// Filling with ones from any position on: whole bytes at once, the odd bits at both ends apart.
ghost use Rattle.std.specs.Prelude.{◌≡◌, ◌+◌, ◌-◌, ◌*◌, ◌%◌, ◌^◌, ◌≤◌, length};
ghost use Rattle.bits.specs.Bits.{ones, placed, Inside};

use super::write::put_number;
use bits::read::byte_of;

// The number whose n bits are ones.
fn low_ones(n: usize) -> u8
    requires { n ≤ 8 }
    ensures { result ≡ 2 ^ n - 1 }
{
    let power = 1u16 << n;
    (power - 1) as u8
}

// Ones that go into one byte.
fn fill_part(page: &mut [u8], position: usize, n: usize)
    requires { position % 8 + n ≤ 8 }
    ensures { page.new ≡ placed page.old position (ones n) }
{
    let v = low_ones(n);
    put_number(page, position, n, v);
}

// Whole bytes of ones.
fn fill_bytes(page: &mut [u8], position: usize, count: usize)
    requires { (position % 8 ≡ 0) × (position + 8 * count ≤ 8 * length page.old) }
    ensures { page.new ≡ placed page.old position (ones (8 * count)) }
{
    let start = byte_of(position);
    for i in 0..count {
        page[start + i] = 255;
    }
}

// Writes n ones from a position on.
pub fn fill_ones(page: &mut [u8], position: usize, n: usize)
    requires { Inside page.old position n }
    ensures { page.new ≡ placed page.old position (ones n) }
{
    if position % 8 + n <= 8 {
        fill_part(page, position, n);
        return;
    }
    let head = (8 - position % 8) % 8;
    fill_part(page, position, head);
    let count = (n - head) / 8;
    fill_bytes(page, position + head, count);
    let done = head + 8 * count;
    fill_part(page, position + done, n - done);
}
