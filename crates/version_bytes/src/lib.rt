// The versions in use at 16 chip selects as bytes on flash (document 02, E11): chip select 15 first, most significant bits first.
//
//   put_numbers    writes 16 numbers into 32 bytes
//   numbers_in     the 16 numbers in 32 bytes
//
// specs/Saved.antt has what writing and loading them is of the plain list; the crate `store` has the calls.
#![tactic(auto)]

ghost use Rattle.std.specs.Prelude.{◌≡◌, length};
ghost use Rattle.version_bytes.specs.Saved.{saved, loaded};

// Writes 16 numbers into 32 bytes.
pub fn put_numbers(numbers: [u16; 16], buffer: &mut [u8])
    requires { length buffer.old ≡ 32 }
    ensures { buffer.new ≡ saved numbers }
{
    for chip in 0..16 {
        let number = numbers[chip];
        let at = 30 - 2 * chip;
        buffer[at] = (number / 256 % 256) as u8;
        buffer[at + 1] = (number % 256) as u8;
    }
}

// The 16 numbers in 32 bytes, chip select 0 first.
pub fn numbers_in(buffer: &[u8]) -> [u16; 16]
    requires { length buffer.now ≡ 32 }
    ensures { result ≡ loaded buffer.now }
{
    let mut numbers = [0u16; 16];
    for chip in 0..16 {
        let high = buffer[30 - 2 * chip] as u16;
        let low = buffer[31 - 2 * chip] as u16;
        numbers[chip] = 256 * high + low;
    }
    numbers
}
