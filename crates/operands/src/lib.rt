// Three patterns, as the fused multiply-add takes them: which have a leading digit, and their parts.
#![tactic(auto)]

pub mod patterns;
