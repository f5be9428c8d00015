// The station inside one pair of stations: inverse_2order of the Rust's interpolation.rs. Document 01,
// "Stations, speeds, times", decides; which pair it is, is in
// crate `following`.
#![tactic(auto)]

pub mod pair;
