// What the checks of a list ask of each entry and of each entry with the next, straight from its bytes.
// Document 01, "Stations, speeds, times", decides; the checks of a
// profile are in crate `profile`, those of times and samples in `sampling`.
#![tactic(auto)]

pub mod tests;
