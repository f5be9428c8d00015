// The C entries called on a case, and whether a call leaves behind what it must. It serves the programs that run cases.
//
// A case is numbers of eight bytes each, low byte first, with the lists behind them. Number 1 says the entry, as src/entry.rt counts them. The numbers 2 to 11
// are those that it is passed. A walk's eight words before a step are its second list, and what a start or a step leaves of them goes to the output.
#![tactic(auto)]

pub mod calling;
pub mod comparing;
pub mod entry;
mod files;
pub mod reading;
mod walks;
