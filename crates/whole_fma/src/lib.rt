// Fused multiply-add in whole numbers: the product of two significands is exact in two limbs; the addend is lined up with it in one window of two limbs, where
// what falls out below leaves a sticky digit; the exact sum of both is cut to one limb, and packed.
// From the bottom up: sticky, difference, window, one_rounding.
#![tactic(auto)]

mod difference;
pub mod one_rounding;
mod sticky;
mod window;
