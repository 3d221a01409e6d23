// Runs of the bit stream of a page (document 02, E7). A run of stream bits is at most two runs of page bits, one on each side of the
// factory's mark, and nearly always one: each function asks that first, and then does what it does on a page without a mark.
//
//   divide    parity_in, remainder_in: the parity of a message in the stream, and the remainder of a run
//   read      zeros_in: the zeros of a run; copy_word, copy_out: its bits copied into a word or into the payload
//   write     copy_in, put_parity, fill_ones: bits of the payload, a parity or ones put into the stream
//
// What the stream is stands in crate `mark`, with the laws of a run in two parts; proofs/ has what each function makes of the two.
#![tactic(auto)]

pub mod divide;
pub mod read;
pub mod write;
