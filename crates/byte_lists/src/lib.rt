// Lists of doubles as bytes: what every C entry that takes or fills a list reads and writes by.
#![tactic(auto)]

pub mod doubles;
