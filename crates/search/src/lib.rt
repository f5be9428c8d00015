// The greatest speed that passes: the cap, tried on the rows as they are read, else a search, whose
// candidates are certified by the table of crate `tables`. Document 01, "Recovery", decides. From the
// bottom up: neighbours, halving, recovery.
#![tactic(auto)]

pub mod answer;
mod halving;
mod neighbours;
pub mod recovery;
