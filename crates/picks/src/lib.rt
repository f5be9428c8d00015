// The lesser and the greater of two doubles, as number specs/Leaves defines them. Document 01, "Number leaves", decides: minimum and maximum.
#![tactic(auto)]

pub mod pick;
