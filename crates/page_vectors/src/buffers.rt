// Buffers out of a vector and onto a line.
ghost use Rattle.std.specs.Prelude.{◌≡◌, length};

// As many bytes as are wanted, all alike.
pub fn filled<const N: usize>(byte: u8) -> [u8; N]
    ensures { N ≡ length result }
{
    [byte; N]
}

// The exponents of two bytes each; zeros after the last.
pub fn exponents(bytes: &[u8]) -> [u16; 256] {
    let mut claims = [0u16; 256];
    for (claim, pair) in claims.iter_mut().zip(bytes.as_chunks::<2>().0) {
        *claim = u16::from_be_bytes(*pair);
    }
    claims
}

// A hexadecimal digit.
fn digit(x: u8) -> u8 {
    let n = x % 16;
    if n < 10 { b'0' + n } else { b'a' + n - 10 }
}

// A buffer in hexadecimal after a space; a dash where it is empty.
pub fn put_buffer(line: &mut [u8], at: usize, bytes: &[u8]) -> usize {
    let mut p = vector_io::put(line, at, b' ');
    if bytes.is_empty() {
        return vector_io::put(line, p, b'-');
    }
    for byte in bytes {
        p = vector_io::put(line, p, digit(byte / 16));
        p = vector_io::put(line, p, digit(*byte));
    }
    p
}
