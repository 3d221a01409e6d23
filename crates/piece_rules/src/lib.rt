// The rules of a block whose message arrives in pieces (document 02, E4), over the state that is carried from call to call.
//
//   start_reply      which blocks can be started
//   is_usable        which states can be gone on with, though they may have come from anywhere
//   finish_reply     which can be finished, into which buffer
//
// The crate `piece_states` has the calls that give these replies.
#![tactic(auto)]

ghost use Rattle.std.specs.Prelude.{◌≡◌};
ghost use Rattle.replies.specs.Replies.{verdict_number};
ghost use Rattle.piece_rules.specs.Rules.{start_reply, usable, finish_reply};

use field::Field;
use remainder::Register;
use remainder::coefficients::{bytes_for, is_below, parity_bits};
use replies::{Refusal, highest};

// A block whose message is arriving: its level field, field choice and message bytes, the bytes fed so far, and the parity of
// these in fourteen words of 64 bits, the lowest first.
#[repr(C)]
#[derive(Clone, Copy)]
pub struct State {
    pub level: u64,
    pub choice: u64,
    pub size: u64,
    pub fed: u64,
    pub words: [u64; 14],
}

// What starting a block of this level field under an edition with a message of so many bytes is refused for, as a layout's rules give it.
pub fn start_reply(edition: u64, f: Field, level_field: u64, size: u64) -> Result<(), Refusal>
    ensures { verdict_number result ≡ start_reply edition f level_field size }
{
    if highest(edition) < level_field {
        return Err(Refusal::LevelTooHigh);
    }
    if size == 0 {
        return Err(Refusal::EmptyMessage);
    }
    if level_field == 0 {
        return Ok(());
    }
    let longest = f.longest() as u64;
    if longest / 8 < size {
        return Err(Refusal::BlockTooLong);
    }
    let t = 2 * level_field as usize;
    let bits = parity_bits(f, t);
    if longest < 8 * size + bits as u64 {
        return Err(Refusal::BlockTooLong);
    }
    Ok(())
}

// Whether a state can be gone on with in a field: a start under some edition would have accepted its numbers, which is one under
// edition 2, no more was fed than the message has, and what is carried is below 2^(mt).
pub fn is_usable(f: Field, state: State) -> bool
    ensures { result ≡ usable f state }
{
    if start_reply(2, f, state.level, state.size).is_err() {
        return false;
    }
    if state.size < state.fed {
        return false;
    }
    let t = 2 * state.level as usize;
    let bits = parity_bits(f, t);
    let words = state.words;
    is_below(Register { words: words }, bits)
}

// What finishing into a buffer of so many bytes is refused for.
pub fn finish_reply(f: Field, state: State, len: usize) -> Result<(), Refusal>
    ensures { verdict_number result ≡ finish_reply f state len }
{
    if !is_usable(f, state) {
        return Err(Refusal::OutOfRange);
    }
    if state.fed != state.size {
        return Err(Refusal::BufferLength);
    }
    let t = 2 * state.level as usize;
    let bits = parity_bits(f, t);
    if len != bytes_for(bits) {
        return Err(Refusal::BufferLength);
    }
    Ok(())
}
