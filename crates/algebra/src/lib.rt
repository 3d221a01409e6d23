// Mathematics over any field of characteristic 2, as far as a decoder of BCH codes needs it. There is no code here: the crate
// holds definitions (specs/) and laws (proofs/) that the crates above cite.
//
// The story, from bottom to top:
//   1. Field, Series, Sum: a field of characteristic 2; power series as functions of the index; finite sums.
//   2. Polynomial: powers of an element, the value of a polynomial by Horner's rule, and how many roots it can have.
//   3. Recurrence: the recurrences of a sequence, Massey's lemma, the steps of the algorithm of Berlekamp and Massey, and what the
//      shortest recurrence of a sequence of power sums tells: its roots are the summed elements, and no others.
//      Binary: for words of bits every second step of the algorithm changes nothing, and is left out.
//   4. Remainder: the remainder of a word by a monic polynomial, one coefficient at a time, and the systematic encoder.
//   5. Word: words of bits, power sums (the syndromes), the least distance of the code, and that decoding finds a codeword
//      whenever one is near enough.
//   6. Number, Array, Search: numbers below q as elements, arrays of numbers as series, and flags at the roots: how code states
//      what it computed.
#![tactic(auto)]
