// The syndromes of a remainder, and the recheck of places by their power sums (document 01, "The code").
//
//   power_sums::syndromes     the values of a remainder at a, a^2, .., a^(2t)
//   power_sums::sums_agree    whether the power sums of a list of places are the syndromes
//
// The value of a polynomial at a^j is the sum of a^(jp) over the exponents p of its terms. So the syndromes of a remainder that a set
// of places leaves are the power sums of that set. Crate `syndrome_lanes` works the values at the odd powers of a out.
#![tactic(auto)]

pub mod power_sums;
