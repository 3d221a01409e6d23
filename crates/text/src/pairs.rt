// Pairs of hexadecimal digits to bytes.
ghost use Rattle.std.specs.Prelude.{◌≡◌, ◌+◌, ◌*◌, ◌<◌, ◌≤◌, length, IsTrue, ◌↔◌, All};
ghost use Rattle.text.specs.Numbers.{digit_of};
ghost use Rattle.text.specs.Bytes.{all_hex, pair_of, placed, bytes_number, bytes_placed};

use crate::digits::digit;

// Whether every character is a hexadecimal digit.
fn all_hex(text: &[u8]) -> bool
    ensures { IsTrue result ↔ All (λ c. digit_of c < 16) text.now }
{
    text.iter().all(|c| digit(*c) < 16)
}

// The byte of two digits.
fn pair(high: u8, low: u8) -> u8
    ensures { result ≡ pair_of high low }
{
    digit(high) % 16 * 16 + digit(low) % 16
}

// Puts the bytes of the first 2n digits of the text to the front of `out`.
fn place(text: &[u8], n: usize, out: &mut [u8])
    requires { (n + n ≤ length text.now) × (n ≤ length out.old) }
    ensures { out.new ≡ placed text.now out.old n }
{
    for i in 0..n {
        out[i] = pair(text[i + i], text[i + i + 1]);
    }
}

// Puts the bytes that the digits of the text say to the front of `out`, and says how many they are. Where it says none,
// because a character is no digit, the digits are odd in number or the bytes too many, `out` is as it was.
pub fn parse_bytes(text: &[u8], out: &mut [u8]) -> Option<u64>
    ensures value { result ≡ bytes_number text.now (length out.old) }
    ensures out_after { out.new ≡ bytes_placed text.now out.old }
{
    let n = text.len() / 2;
    if text.len() % 2 != 0 {
        return None;
    }
    if out.len() < n {
        return None;
    }
    if !all_hex(text) {
        return None;
    }
    place(text, n, out);
    Some(n as u64)
}
