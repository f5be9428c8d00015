// Refusal 10 of recovery, and how an answer is told to lent numbers. The request, from patterns, is in crate `requests`.
#![tactic(auto)]

pub mod recovery;
pub mod samples;
