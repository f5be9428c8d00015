// Every entry; crate malikoza_c hands them to C. Doubles pass as 64-bit patterns, or as eight bytes each, low byte first, in byte lists. Each NaN pattern
// reads as NaN, and a NaN is written 7FF8000000000000.
#![tactic(auto)]

pub mod files;
pub mod leaves;
pub mod recover;
pub mod stations;
pub mod steps;
