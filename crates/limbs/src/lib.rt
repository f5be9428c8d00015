// Numbers of two limbs: the exact product of two words, and the sum of two such numbers. Hypot and the fused multiply-add stand on these.
#![tactic(auto)]

pub mod wide;
