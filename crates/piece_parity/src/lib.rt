// The bits of a piece of a message taken into the parity of the bits before them (document 02, E4): a long piece through the kernel
// that pages are written by, a short one bit by bit, since making the table takes longer.
//
//   carried    the parity of some bits and of the bits of a piece after them
#![tactic(auto)]

ghost use Rattle.std.specs.Prelude.{◌≡◌, ◌*◌, ◌%◌, ◌^◌, ◌≤◌, ◌<◌, length};
ghost use Rattle.bits.specs.Bits.{bit_of, run};
ghost use Rattle.field.specs.Field.{degree};
ghost use Rattle.code.specs.Generator.{generator};
ghost use Rattle.code.specs.Register.{register};
ghost use Rattle.remainder.specs.Parity.{parity_from};
ghost use Rattle.piece_parity.specs.Carried.{bits_of, carried};

use bitwise_division::parity_by_bits;
use division::runs::parity_more;
use division_table::make_table;
use field::Field;
use remainder::Register;

// By the table of the level, which is made here.
fn parity_by_table(f: Field, t: usize, state: Register, piece: &[u8], n: usize) -> Register
    requires { (t % 2 ≡ 0) × (0 < t) × (t ≤ 62) × (register state.words < 2 ^ (degree f * t)) }
    ensures { register result.words
        ≡ parity_from (degree f * t) (generator f t) (register state.words) (run (bit_of piece.now) 0 n) }
{
    let mut table = [0u8; 36864];
    make_table(f, t, &mut table);
    parity_more(f, t, &table, state, piece, 0, n)
}

// The parity of some bits and of the bits of a piece after them, for the level t = 2 level. Where t = 0 there is none.
pub fn carried(f: Field, level: usize, state: Register, piece: &[u8]) -> Register
    requires { (level ≤ 31) × (register state.words < 2 ^ (degree f * (2 * level))) × (0 < level → length piece.now < 65536) }
    ensures { register result.words ≡ carried f (2 * level) (register state.words) (bits_of piece.now) }
{
    if level == 0 {
        return state;
    }
    let t = 2 * level;
    let n = 8 * piece.len();
    if piece.len() < 36 {
        return parity_by_bits(f, t, state, piece, 0, n);
    }
    parity_by_table(f, t, state, piece, n)
}
