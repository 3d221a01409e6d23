// The binary BCH code of document 01, for every level t up to 62 and both fields.
//
// A word is a list of bits, the highest power of x first. It is a codeword of level t if its polynomial is zero at a, a^2, .., a^(2t).
// A block is repaired to the codeword within t flips of it, and there is at most one; where there is none it is erased if it has at
// most t zeros, else ruined.
//
// The definitions stand in specs/, lowest first:
//   Word         words of bits, distance, flips
//   Code         codewords, a codeword within t flips, the generator of a level
//   Generator    minimal polynomials, generators as numbers, remainder, parity
//   Search       exhaustive search over the words at most t places away
//   Outcome      the codeword within t flips of a block; what the block gives
//   Locations    the set of exponents that leaves a remainder, and its listing
//   Register     numbers in words of 64 bits
//
// The laws stand in proofs/, once over m and t:
//   Distance, Codeword, Outcome, Zeros  codewords are more than 2t places apart; what a block gives is as it should be
//   Polynomial, Minimal, Conjugates     numbers as polynomials; the computed tests are in MinimalTest and ConjugatesTest
//   Generator, Unique                   the product of the minimal polynomials is the generator, of degree m t, and the only one
//   Remainder, Dividend                 remainder 0 is codeword; parity; syndromes from the remainder; sums, cuts and leading zeros
//   Repair, Flips, Descending, Locations the recheck, completeness of the decoder, locating from a remainder and reading by it
#![tactic(auto)]
