// Fused multiply-add: x * y + z, rounded once. Most often the rounded product and a double on either side of it tell the answer. Else crate whole_fma does all
// in whole numbers.
#![tactic(auto)]

pub mod multiply_add;
