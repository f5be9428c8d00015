// What recovery is asked, the bounds of a station, and how a row cuts the speeds down. Document 01, "Recovery", decides.
#![tactic(auto)]

pub mod bounds;
pub mod projection;
pub mod request;
