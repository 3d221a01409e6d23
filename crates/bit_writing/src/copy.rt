// Copying n bits from any position of one slice to any position of another: whole bytes of the target at once, the odd bits at both ends apart.
ghost use Rattle.std.specs.Prelude.{◌≡◌, ◌+◌, ◌-◌, ◌*◌, ◌%◌, ◌≤◌, ◌<◌, length};
ghost use Rattle.bits.specs.Bits.{bit_of, run, placed, Inside};

use super::write::put_number;
use bits::read::{bits_at, byte_of, joined};

// Bits that go into one byte of the target.
fn copy_part(from: &[u8], at: usize, to: &mut [u8], position: usize, n: usize)
    requires { position % 8 + n ≤ 8 }
    ensures { to.new ≡ placed to.old position (run (bit_of from.now) at n) }
{
    if n == 0 {
        return;
    }
    let bits = bits_at(from, at, n);
    put_number(to, position, n, bits);
}

// Whole bytes of the source into whole bytes of the target.
fn copy_aligned(from: &[u8], at: usize, to: &mut [u8], position: usize, count: usize)
    requires { (at % 8 ≡ 0) × (position % 8 ≡ 0) × (at + 8 * count ≤ 8 * length from.now) × (position + 8 * count ≤ 8 * length to.old) }
    ensures { to.new ≡ placed to.old position (run (bit_of from.now) at (8 * count)) }
{
    let first = byte_of(at);
    let start = byte_of(position);
    for i in 0..count {
        to[start + i] = from[first + i];
    }
}

// Whole bytes of the target, each from two bytes of the source.
fn copy_shifted(from: &[u8], at: usize, to: &mut [u8], position: usize, count: usize)
    requires { (0 < at % 8) × (position % 8 ≡ 0) × (at + 8 * count ≤ 8 * length from.now) × (position + 8 * count ≤ 8 * length to.old) }
    ensures { to.new ≡ placed to.old position (run (bit_of from.now) at (8 * count)) }
{
    let first = byte_of(at);
    let start = byte_of(position);
    for i in 0..count {
        to[start + i] = joined(from[first + i], from[first + i + 1], at % 8);
    }
}

// Whole bytes of the target, from any position of the source on.
fn copy_bytes(from: &[u8], at: usize, to: &mut [u8], position: usize, count: usize)
    requires { (position % 8 ≡ 0) × (at + 8 * count ≤ 8 * length from.now) × (position + 8 * count ≤ 8 * length to.old) }
    ensures { to.new ≡ placed to.old position (run (bit_of from.now) at (8 * count)) }
{
    if at % 8 == 0 {
        copy_aligned(from, at, to, position, count);
    } else {
        copy_shifted(from, at, to, position, count);
    }
}

// The bits of a run of n that are left after the first `done`.
fn copy_rest(from: &[u8], at: usize, to: &mut [u8], position: usize, n: usize, done: usize)
    requires { (done ≤ n) × (at + n < 18446744073709551616) × (position + n < 18446744073709551616) × ((position + done) % 8 + (n - done) ≤ 8) }
    ensures { to.new ≡ placed to.old (position + done) (run (bit_of from.now) (at + done) (n - done)) }
{
    copy_part(from, at + done, to, position + done, n - done);
}

// Copies n bits from a position of one slice to a position of another.
pub fn copy_bits(from: &[u8], at: usize, to: &mut [u8], position: usize, n: usize)
    requires { Inside from.now at n × Inside to.old position n }
    ensures { to.new ≡ placed to.old position (run (bit_of from.now) at n) }
{
    if position % 8 + n <= 8 {
        copy_part(from, at, to, position, n);
        return;
    }
    let head = (8 - position % 8) % 8;
    copy_part(from, at, to, position, head);
    let count = (n - head) / 8;
    copy_bytes(from, at + head, to, position + head, count);
    let done = head + 8 * count;
    copy_rest(from, at, to, position, n, done);
}
