// Document 01's reply of an answer.
ghost use Rattle.std.specs.Prelude.{◌≡◌};
ghost use Rattle.replies.specs.Replies.{verdict_number};

use replies::{Refusal, refusal_number};

// The reply of an answer to a remainder.
pub fn locate_reply(answer: Result<usize, Refusal>) -> u8
    ensures { result ≡ verdict_number answer }
{
    match answer {
        Ok(_) => 0,
        Err(refusal) => refusal_number(refusal),
    }
}
