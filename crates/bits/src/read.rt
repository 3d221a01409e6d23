// Reading: one, eight or 64 bits from any position on. Past the end of a page there are zeros.
ghost use Rattle.std.specs.Prelude.{◌≡◌, ◌+◌, ◌-◌, ◌*◌, ◌/◌, ◌%◌, ◌^◌, ◌≤◌, ◌<◌, length, get_or};
ghost use Rattle.bits.specs.Bits.{bit_at, bit_of, run, number};

// The bit at position p.
pub fn bit_at(page: &[u8], p: usize) -> u8
    ensures { result ≡ bit_at page.now p }
{
    (byte_or_zero(page, p / 8) >> (7 - p % 8)) % 2
}

// The byte that position p lies in.
pub fn byte_of(p: usize) -> usize
    ensures { result ≡ p / 8 }
{
    p / 8
}

// Byte i of a page.
fn byte_or_zero(page: &[u8], i: usize) -> u8
    ensures { result ≡ get_or page.now i 0 }
{
    if i < page.len() { page[i] } else { 0 }
}

// The eight bits from bit k on, counted from the highest, of two bytes that follow each other.
pub fn joined(high: u8, low: u8, k: usize) -> u8
    requires { k < 8 }
    ensures { result ≡ high * 2 ^ k % 256 + low / 2 ^ (8 - k) }
{
    let upper = ((high as u16) << k) % 256;
    let lower = (low as u16) >> (8 - k);
    (upper + lower) as u8
}

// The eight bits from position p on, as a number.
pub fn byte_at(page: &[u8], p: usize) -> u8
    ensures { result ≡ number (run (bit_of page.now) p 8) }
{
    let i = p / 8;
    let high = byte_or_zero(page, i);
    let low = byte_or_zero(page, i + 1);
    joined(high, low, p % 8)
}

// N bits from position p on, at most eight, as a number.
pub fn bits_at(page: &[u8], p: usize, n: usize) -> u8
    requires { n ≤ 8 }
    ensures { result ≡ number (run (bit_of page.now) p n) }
{
    let byte = byte_at(page, p);
    ((byte as u16) >> (8 - n)) as u8
}

// Four bytes as a number, the first the highest.
fn four_of(a: u8, b: u8, c: u8, d: u8) -> u32
    ensures { result ≡ a * 16777216 + b * 65536 + c * 256 + d }
{
    a as u32 * 16777216 + b as u32 * 65536 + c as u32 * 256 + d as u32
}

// The 32 bits from byte i on, where the page has them.
fn four_at(page: &[u8], i: usize) -> u32
    requires { i + 4 ≤ length page.now }
    ensures { result ≡ number (run (bit_of page.now) (8 * i) 32) }
{
    four_of(page[i], page[i + 1], page[i + 2], page[i + 3])
}

// The 32 bits from byte i on, near the end of the page or past it.
fn four_near_end(page: &[u8], i: usize) -> u32
    requires { i + 4 < 18446744073709551616 }
    ensures { result ≡ number (run (bit_of page.now) (8 * i) 32) }
{
    let a = byte_or_zero(page, i);
    let b = byte_or_zero(page, i + 1);
    let c = byte_or_zero(page, i + 2);
    let d = byte_or_zero(page, i + 3);
    four_of(a, b, c, d)
}

// The 64 bits from byte i on, where the page has them.
pub fn eight_at(page: &[u8], i: usize) -> u64
    requires { i + 8 ≤ length page.now }
    ensures { result ≡ number (run (bit_of page.now) (8 * i) 64) }
{
    let upper = four_at(page, i);
    let lower = four_at(page, i + 4);
    upper as u64 * 4294967296 + lower as u64
}

// The 64 bits from bit k on of a word in two halves and the byte that follows it.
fn word_of(upper: u32, lower: u32, next: u8, k: usize) -> u64
    requires { k < 8 }
    ensures { result ≡ (upper * 4294967296 + lower) * 2 ^ k % 18446744073709551616 + next / 2 ^ (8 - k) }
{
    let word = upper as u64 * 4294967296 + lower as u64;
    (word << k) + (next as u64 >> (8 - k))
}

// The 64 bits from position p on, as a number.
pub fn word_at(page: &[u8], p: usize) -> u64
    ensures { result ≡ number (run (bit_of page.now) p 64) }
{
    let i = p / 8;
    if i + 9 <= page.len() {
        let upper = four_at(page, i);
        let lower = four_at(page, i + 4);
        return word_of(upper, lower, page[i + 8], p % 8);
    }
    let upper = four_near_end(page, i);
    let lower = four_near_end(page, i + 4);
    let next = byte_or_zero(page, i + 8);
    word_of(upper, lower, next, p % 8)
}
