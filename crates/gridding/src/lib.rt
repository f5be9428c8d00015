// t to s of the Rust's interpolation.rs on an even grid: its size, what is refused, the last station after
// it. Document 01, "Stations, speeds, times", decides; what a list
// refuses too is in crate `sampling`, and whether the last station is added in crate `strap_end`.
#![tactic(auto)]

pub mod grid;
