// A walk as a C caller holds it, eight words; and a step on a byte list of rows, refusal 10 before all others.
#![tactic(auto)]

pub mod state;
pub mod step;
