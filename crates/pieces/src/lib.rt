// The parity of one block whose message arrives in pieces (document 02, E4).
//
//   start     a block by edition, level field, field choice and message length: 7, 1, 2 or 3 as for a block of a page
//   feed      one more piece of the message, of any length; a piece that would pass the message's length is 6
//   finish    the parity of the message, as document 01 hands a remainder in; 6 before the message is whole
//
// What is carried from piece to piece is a state, plain numbers: what was asked for at the start, the bytes fed so far and the
// parity of these. The calls are lent the state; they are those of crate `piece_states`. None asks anything of its caller, and a refusal
// or a finish leaves the state as it was.
// The law that it does not matter where a message is cut stands in proofs/Cutting.antt, once over m and t.
#![tactic(auto)]

pub use piece_states::{feed, finish, start};
