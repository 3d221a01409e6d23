// Bits of pages (document 01, "Bits and polynomials"): single bits, runs of bits at any position, and pages given by their bits.
//
// Stream position p of a page is byte p / 8, bit 7 - p mod 8. A read gives a bit, or the number that several bits make, the first of
// them the highest; past the end of a page there are zeros. Crate `bit_writing` writes.
//
//   read    bit_at, byte_at, bits_at, word_at: one, eight, up to eight, or 64 bits from a position on; eight_at: 64 bits from a byte on
//
// Each function works on slices and positions. Its contract gives the number that is read by equality with a definition of
// specs/Bits.antt. The laws of these definitions stand in proofs/: Numbers (bits and binary digits), Runs, Pages (bytes given by
// their bits), Placed (a word put at a position), Steps (shifts and joins of bytes and words).
#![tactic(auto)]

pub mod read;
