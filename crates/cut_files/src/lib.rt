// Cut files: sections of a kind, a payload length and a payload. Document 02, request 4, decides.
#![tactic(auto)]

pub mod judging;
pub mod parts;
