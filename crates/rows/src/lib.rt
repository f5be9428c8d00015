// A row of a list of doubles in threes: what it is read as, and what it says of a speed. Document 01, "Recovery", decides.
#![tactic(auto)]

pub mod block;
pub mod judging;
pub mod reading;
pub mod whole;
