// What a C caller's patterns are read as: the request of document 01, "Recovery". Its rows come as bytes, in crate `replies`.
#![tactic(auto)]

pub mod from_patterns;
