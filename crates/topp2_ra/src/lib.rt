// Recovery of a stage whose reachable interval came out empty: `recover_forward_intersection` of the Rust's topp2_ra.rs. Document 01, "Recovery", decides.
#![tactic(auto)]

mod inputs;
pub mod recovery;
mod tolerant;
