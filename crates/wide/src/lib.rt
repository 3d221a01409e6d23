// Numbers of up to fifteen words of 64 bits, in a struct that goes by value and in bytes, the lowest byte first.
//
//   eight_low    the number in eight bytes
//   row_added    a number and a number in bytes, added over GF(2)
//   store_word   a word put into eight bytes
//   store_row    the first words of a number put into bytes
//
// specs/Bytes.antt has the definitions, and proofs/Bytes.antt the laws.
#![tactic(auto)]

ghost use Rattle.std.specs.Prelude.{◌≡◌, ◌+◌, ◌*◌, ◌^◌, ◌≤◌, ◌<◌, length, drop};
ghost use Rattle.std.specs.Int.Bits.{bit_xor};
ghost use Rattle.code.specs.Register.{low, register};
ghost use Rattle.wide.specs.Bytes.{little, Only};

// Fifteen words of 64 bits, the lowest first.
#[derive(Clone, Copy)]
pub struct Wide {
    pub words: [u64; 15],
}

// Four bytes as a number, the first the lowest.
fn four_little(a: u8, b: u8, c: u8, d: u8) -> u32
    ensures { result ≡ d * 16777216 + c * 65536 + b * 256 + a }
{
    a as u32 + b as u32 * 256 + c as u32 * 65536 + d as u32 * 16777216
}

// The number in the four bytes from byte i on.
fn four_low(bytes: &[u8], i: usize) -> u32
    requires { i + 4 ≤ length bytes.now }
    ensures { result ≡ little (drop i bytes.now) 4 }
{
    four_little(bytes[i], bytes[i + 1], bytes[i + 2], bytes[i + 3])
}

// The number in the eight bytes from byte i on.
pub fn eight_low(bytes: &[u8], i: usize) -> u64
    requires { i + 8 ≤ length bytes.now }
    ensures { result ≡ little (drop i bytes.now) 8 }
{
    let lower = four_low(bytes, i);
    let upper = four_low(bytes, i + 4);
    upper as u64 * 4294967296 + lower as u64
}

// The sum over GF(2) of a number that has room in `count` words and of the number in eight times as many bytes, from `from` on.
pub fn row_added(state: Wide, rows: &[u8], from: usize, count: usize) -> Wide
    requires { (count ≤ 15) × (from + 8 * count ≤ length rows.now) × (register state.words < 2 ^ (64 * count)) }
    ensures { register result.words ≡ bit_xor (little (drop from rows.now) (8 * count)) (register state.words) }
{
    let mut sum = state.words;
    for i in 0..count {
        sum[i] = eight_low(rows, from + 8 * i) ^ sum[i];
    }
    Wide { words: sum }
}

// The eight bytes from `to` on become those of a word.
pub fn store_word(rows: &mut [u8], to: usize, w: u64)
    requires { to + 8 ≤ length rows.old }
    ensures { (little (drop to rows.new) 8 ≡ w) × Only to 8 rows.old rows.new }
{
    for i in 0..8 {
        rows[to + i] = ((w >> (8 * i)) % 256) as u8;
    }
}

// The bytes from `to` on become those of the first words of a number.
pub fn store_row(rows: &mut [u8], to: usize, row: Wide, count: usize)
    requires { (count ≤ 15) × (to + 8 * count ≤ length rows.old) }
    ensures { (little (drop to rows.new) (8 * count) ≡ low row.words count) × Only to (8 * count) rows.old rows.new }
{
    let words = row.words;
    for i in 0..count {
        store_word(rows, to + 8 * i, words[i]);
    }
}
