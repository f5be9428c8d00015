// a to b of the Rust's interpolation.rs: what is refused, and the slopes, on byte lists. Document 01,
// "Stations, speeds, times", decides; s to t is in crate `timing`,
// t to s in `sampling` and `gridding`.
#![tactic(auto)]

pub mod slopes;
