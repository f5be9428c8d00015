// Where the knife is when: t_to_s_topp2_core of the Rust's interpolation.rs, one pass over times that follow
// each other. Document 01, "Stations, speeds, times",
// decides; what is refused, and the list, are in crate `sampling`, the even grid in `gridding`.
#![tactic(auto)]

mod interval;
pub mod pass;
pub mod times;
