// The table of the search, which crate `search` alone uses: each row is worked out once, and every candidate
// is certified by the table. Document 01, "Recovery",
// decides. From the bottom up: trial, filling, certificate, verdict, projection.
#![tactic(auto)]

pub mod certificate;
pub mod filling;
pub mod projection;
pub mod trial;
pub mod verdict;
