// Parts of buffers, and what is worked out over them.
ghost use Rattle.std.specs.Prelude.{◌≡◌, take};
ghost use Rattle.text.specs.Parts.{record_of, plus_of};

// The layout record of three words of 32 bits, word 0 first, most significant byte first.
pub fn layout_record(first: u32, second: u32, third: u32) -> [u8; 12]
    ensures { result ≡ record_of first second third }
{
    [
        (first / 16777216) as u8,
        (first / 65536 % 256) as u8,
        (first / 256 % 256) as u8,
        (first % 256) as u8,
        (second / 16777216) as u8,
        (second / 65536 % 256) as u8,
        (second / 256 % 256) as u8,
        (second % 256) as u8,
        (third / 16777216) as u8,
        (third / 65536 % 256) as u8,
        (third / 256 % 256) as u8,
        (third % 256) as u8,
    ]
}

// The sum of two numbers; the first where the sum has more than 64 bits.
pub fn plus(a: u64, b: u64) -> u64
    ensures { result ≡ plus_of a b }
{
    a.checked_add(b).unwrap_or(a)
}

// The product of a number and one of 32 bits; the largest of 64 bits where it has more.
pub fn times(a: u64, b: u32) -> u64 {
    a.saturating_mul(u64::from(b))
}

// A number that is not below 0; 0 for one that is.
pub fn natural(n: i64) -> u64 {
    u64::try_from(n).unwrap_or(0)
}

// The first n items; all where there are no more.
pub fn front<T>(items: &[T], n: usize) -> &[T]
    ensures { result.now ≡ take n items.now }
{
    if items.len() <= n {
        return items;
    }
    &items[..n]
}

// The first n bytes, to be written; all where there are no more.
pub fn front_mut(bytes: &mut [u8], n: usize) -> &mut [u8] {
    if bytes.len() <= n {
        return bytes;
    }
    &mut bytes[..n]
}
