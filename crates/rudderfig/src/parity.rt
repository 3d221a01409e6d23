// The calls that take one block's message in pieces (document 02, E4), on a state that the caller lends.
ghost use Rattle.std.specs.Prelude.{◌≡◌};
ghost use Rattle.replies.specs.Replies.{verdict_number};
ghost use Rattle.answer_words.specs.Answer.{answer_word};
ghost use Rattle.piece_states.specs.Calls.{start_of, feed_of, finish_of};
ghost use Rattle.rudderfig.specs.Pieces.{StateReturns, ParityReturns};

use answer_words::answer_word;
use piece_rules::State;
use replies::{Refusal, answer_number};

// The word of an answer: no block and no value goes with a reply.
fn piece_word(answer: Result<(), Refusal>) -> u64
    ensures { result ≡ answer_word (verdict_number answer) 0 0 0 }
{
    answer_word(answer_number(answer), 0, 0, 0)
}

// Starts the parity of a block in the lent state: the edition, its level field, its field choice and the bytes of its message.
pub fn rudderfig_parity_start(
    state: &mut State,
    edition: u64,
    level_field: u64,
    field_choice: u64,
    length: u64,
) -> u64
    ensures { StateReturns (start_of state.old edition level_field field_choice length) result state.new }
{
    piece_word(pieces::start(state, edition, level_field, field_choice, length))
}

// Feeds one more piece of the message.
pub fn rudderfig_parity_feed(state: &mut State, piece: &[u8]) -> u64
    ensures { StateReturns (feed_of state.old piece.now) result state.new }
{
    piece_word(pieces::feed(state, piece))
}

// Finishes: the parity of the message.
pub fn rudderfig_parity_finish(state: &mut State, parity: &mut [u8]) -> u64
    ensures { ParityReturns (finish_of state.old parity.old) result state.new parity.new }
{
    piece_word(pieces::finish(state, parity))
}
