// The checks of a profile, refusals 11 to 18; of 16 the test is the caller's. Document 01, "Stations, speeds,
// times", decides; what each entry of a list and each pair of neighbours is
// asked is in crate `list_tests`.
#![tactic(auto)]

pub mod checks;
