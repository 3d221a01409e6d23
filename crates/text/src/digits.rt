// Digits to numbers.
ghost use Rattle.std.specs.Prelude.{◌≡◌, ◌<◌, ◌≤◌, Some};
ghost use Rattle.text.specs.Numbers.{digit_of, appended, digits_of, is_hex, without_prefix, number_of};

// The value of a digit, in either case of its letter; 16 where the character is none.
#[tactic(auto, unfolding(crate::specs::Numbers::digit_of))]
pub fn digit(c: u8) -> u8
    ensures { result ≡ digit_of c }
{
    match c {
        b'0'..=b'9' => c - b'0',
        b'A'..=b'F' => c - b'A' + 10,
        b'a'..=b'f' => c - b'a' + 10,
        _ => 16,
    }
}

// A number with one digit more.
fn append(base: u64, v: u64, c: u8) -> Option<u64>
    requires { (0 < base) × (base ≤ 16) }
    ensures { result ≡ appended base (Some v) c }
{
    let d = digit(c) as u64;
    if base <= d {
        return None;
    }
    v.checked_mul(base)?.checked_add(d)
}

// The number of the digits of a text in a base.
fn digits(base: u64, text: &[u8]) -> Option<u64>
    requires { (0 < base) × (base ≤ 16) }
    ensures { result ≡ digits_of base text.now }
{
    let mut v = 0;
    for c in text {
        v = append(base, v, *c)?;
    }
    Some(v)
}

// Whether the text starts with 0x and goes on.
fn is_hex(text: &[u8]) -> bool
    ensures { result ≡ is_hex text.now }
{
    if text.len() < 3 {
        return false;
    }
    if text[0] != 48 {
        return false;
    }
    text[1] == 120
}

// The digits of a text: what stands after 0x, where it starts so.
pub fn without_prefix(text: &[u8]) -> &[u8]
    ensures { result.now ≡ without_prefix text.now }
{
    if is_hex(text) {
        return &text[2..];
    }
    text
}

// The number that a text says: decimal digits, or 0x and hexadecimal ones.
pub fn parse_number(text: &[u8]) -> Option<u64>
    ensures { result ≡ number_of text.now }
{
    if text.is_empty() {
        return None;
    }
    if is_hex(text) {
        return digits(16, &text[2..]);
    }
    digits(10, text)
}
