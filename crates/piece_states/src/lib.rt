// The calls of a block whose message arrives in pieces, on a state that the caller lends (document 02, E4).
//
//   start     a block by edition, level field, field choice and message length
//   feed      one more piece of the message, of any length
//   finish    the parity of the message
//
// The crate `piece_rules` has the state. It decides as a block's rules do, and looks at a state that may have come from anywhere. Crate
// `piece_parity` takes the bits of a piece into the carried parity. A state that no start has made is refused with 7, or else is taken for
// what its numbers say: specs/Calls.antt has it all, over piece_rules/Rules. A refusal leaves the state as it was, and so does a finish.
#![tactic(auto)]

ghost use Rattle.std.specs.Prelude.{◌≡◌, ◌+◌, ◌≤◌, ◌<◌, true, false, length};
ghost use Rattle.replies.specs.Replies.{verdict_number};
ghost use Rattle.piece_states.specs.State.{choice_of, after};
ghost use Rattle.piece_rules.specs.Rules.{usable};
ghost use Rattle.piece_states.specs.Calls.{answered, start_in, start_of, feed_in, feed_of, finished, finish_in, finish_of};

use field::Field;
use piece_parity::carried;
use piece_rules::{State, finish_reply, is_usable, start_reply};
use register_digits::to_bytes;
use remainder::Register;
use replies::{Refusal, offered};

// The number of a field choice.
fn choice_of(f: Field) -> u64
    ensures { result ≡ choice_of f }
{
    match f {
        Field::Thirteen => 0,
        Field::Fourteen => 1,
    }
}

// Starts a block in a field.
fn start_in(
    state: &mut State,
    edition: u64,
    f: Field,
    level_field: u64,
    size: u64,
) -> Result<(), Refusal>
    ensures { answered (verdict_number result) state.new ≡ start_in edition f state.old level_field size }
{
    start_reply(edition, f, level_field, size)?;
    *state = State {
        level: level_field,
        choice: choice_of(f),
        size,
        fed: 0,
        words: [0u64; 14],
    };
    Ok(())
}

// Starts a block in the lent state.
pub fn start(
    state: &mut State,
    edition: u64,
    level_field: u64,
    field_choice: u64,
    size: u64,
) -> Result<(), Refusal>
    ensures { answered (verdict_number result) state.new
        ≡ start_of state.old edition level_field field_choice size }
{
    if !offered(edition) {
        return Err(Refusal::OutOfRange);
    }
    match Field::choose(field_choice) {
        Some(f) => start_in(state, edition, f, level_field, size),
        None => Err(Refusal::OutOfRange),
    }
}

// The state after a piece that fits.
fn advanced(f: Field, state: State, piece: &[u8]) -> State
    requires { (usable f state ≡ true) × (state.fed + length piece.now ≤ state.size) }
    ensures { result ≡ after f state piece.now }
{
    let words = state.words;
    let level = state.level as usize;
    let next = carried(f, level, Register { words: words }, piece);
    let next_words = next.words;
    State {
        level: state.level,
        choice: state.choice,
        size: state.size,
        fed: state.fed + piece.len() as u64,
        words: next_words,
    }
}

// Whether a piece of n bytes would pass the stated length.
fn passes_length(state: State, n: u64) -> bool
    requires { state.fed ≤ state.size }
    ensures { (result ≡ true → state.size < state.fed + n) × (result ≡ false → state.fed + n ≤ state.size) }
{
    let left = state.size - state.fed;
    left < n
}

// Feeds a piece in a field.
fn feed_in(f: Field, state: &mut State, piece: &[u8]) -> Result<(), Refusal>
    ensures { answered (verdict_number result) state.new ≡ feed_in f state.old piece.now }
{
    let before = *state;
    if !is_usable(f, before) {
        return Err(Refusal::OutOfRange);
    }
    if passes_length(before, piece.len() as u64) {
        return Err(Refusal::BufferLength);
    }
    *state = advanced(f, before, piece);
    Ok(())
}

// Feeds a piece of the message: all of it is taken in, or none.
pub fn feed(state: &mut State, piece: &[u8]) -> Result<(), Refusal>
    ensures { answered (verdict_number result) state.new ≡ feed_of state.old piece.now }
{
    match Field::choose(state.choice) {
        Some(f) => feed_in(f, state, piece),
        None => Err(Refusal::OutOfRange),
    }
}

// Finishes in a field.
fn finish_in(f: Field, state: &mut State, parity: &mut [u8]) -> Result<(), Refusal>
    ensures { finished (answered (verdict_number result) state.new) parity.new ≡ finish_in f state.old parity.old }
{
    let whole = *state;
    finish_reply(f, whole, parity.len())?;
    let words = whole.words;
    to_bytes(Register { words: words }, parity);
    Ok(())
}

// Finishes: the parity of the message, where all of it was fed.
pub fn finish(state: &mut State, parity: &mut [u8]) -> Result<(), Refusal>
    ensures { finished (answered (verdict_number result) state.new) parity.new ≡ finish_of state.old parity.old }
{
    match Field::choose(state.choice) {
        Some(f) => finish_in(f, state, parity),
        None => Err(Refusal::OutOfRange),
    }
}
