// s to t of the Rust's interpolation.rs: what is refused, and the times, on byte lists. Document 01,
// "Stations, speeds, times", decides; a to b is in crate `sloping`,
// t to s in `sampling` and `gridding`.
#![tactic(auto)]

pub mod times;
