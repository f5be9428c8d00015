// t to s of the Rust's interpolation.rs for a list of times: what is refused, and the answers; and what an
// even grid, in crate `gridding`, refuses too. Document 01, "Stations,
// speeds, times", decides.
#![tactic(auto)]

pub mod list;
pub mod samples;
