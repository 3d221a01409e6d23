// Bytes to pairs of hexadecimal digits.
ghost use Rattle.std.specs.Prelude.{◌≡◌};
ghost use Rattle.text.specs.Hex.{char_of, hex_of};

// The character of the lowest four bits, a capital letter from ten on.
fn hex_char(d: u8) -> u8
    ensures { result ≡ char_of d }
{
    let low = d % 16;
    if low < 10 {
        return 48 + low;
    }
    55 + low
}

// The two digits of a byte.
pub fn hex_byte(b: u8) -> [u8; 2]
    ensures { result ≡ hex_of b }
{
    let high = hex_char(b / 16);
    let low = hex_char(b);
    [high, low]
}
