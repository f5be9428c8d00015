// Where a double's pattern is taken apart and put together, with the one rounding argument.
#![tactic(auto)]

pub mod packing;
