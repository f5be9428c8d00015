// Where a NaN meets a pattern: a double read from its 64 bits, and written as them. Document 01, "Number leaves", decides: which pattern a NaN of ours has.
#![tactic(auto)]

pub mod pattern;
