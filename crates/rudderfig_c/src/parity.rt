// One block's message in pieces, on a state that the caller lends, as C calls it.
ghost use Rattle.piece_states.specs.Calls.{start_of, feed_of, finish_of};
ghost use Rattle.rudderfig.specs.Pieces.{StateReturns, ParityReturns};

use piece_rules::State;

// Starts the parity of a block in the lent state: the edition, its level field, its field choice and the bytes of its message.
#[unsafe(no_mangle)]
pub extern "C" fn rudderfig_parity_start(
    state: &mut State,
    edition: u64,
    level_field: u64,
    field_choice: u64,
    length: u64,
) -> u64
    ensures { StateReturns (start_of state.old edition level_field field_choice length) result state.new }
{
    rudderfig::parity::rudderfig_parity_start(state, edition, level_field, field_choice, length)
}

// Feeds one more piece of the message.
#[unsafe(no_mangle)]
pub extern "C" fn rudderfig_parity_feed(state: &mut State, piece: &[u8]) -> u64
    ensures { StateReturns (feed_of state.old piece.now) result state.new }
{
    rudderfig::parity::rudderfig_parity_feed(state, piece)
}

// Finishes: the parity of the message.
#[unsafe(no_mangle)]
pub extern "C" fn rudderfig_parity_finish(state: &mut State, parity: &mut [u8]) -> u64
    ensures { ParityReturns (finish_of state.old parity.old) result state.new parity.new }
{
    rudderfig::parity::rudderfig_parity_finish(state, parity)
}
