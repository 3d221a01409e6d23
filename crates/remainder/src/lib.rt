// Remainders (document 01, "Remainder"), kept in registers.
//
// A remainder is a polynomial of degree below mt over GF(2). A register is a struct of fourteen words of 64 bits that goes by value: the
// binary digit p of the number in its words is the coefficient of x^p.
//
//   coefficients   how many coefficients and bytes a remainder has; a register of zeros, one coefficient, tests for zero and for a degree
//   add            a register and a row of words, added
//
// Registers are moved up and down in the crate `register_shifts`, and read from bits and put into pages and bytes in `register_digits`.
// What a remainder is stands in specs/Remainder.antt and in the crate `code`; proofs/ has the laws: Words (numbers in words of 64 bits), Fold
// (the remainder as a fold over the bits), Parity (division is linear, and what follows), Tests (whether all words are zero).
#![tactic(auto)]

pub mod add;
pub mod coefficients;

// Fourteen words of 64 bits, the lowest first: room for mt = 868, at m = 14 and t = 62.
#[derive(Clone, Copy)]
pub struct Register {
    pub words: [u64; 14],
}
