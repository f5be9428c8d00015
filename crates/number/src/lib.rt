// The small number leaves of document 01 that take one double: each is total, and its contract is an equation to a definition of specs/Leaves.antt.
// Minimum and maximum, which are defined there too, are in crate `picks`; patterns are in crate `patterns`.
#![tactic(auto)]

pub mod size;
pub mod step;
