// Refusals: each by name with its number, their order, what a call leaves under each, and the limits that some of them keep.
#![tactic(auto)]

pub mod chain;
pub mod most;
pub mod refusal;
pub mod refusing;
