// Numbers and text in bytes. It serves the programs that run cases; nothing is asked of what it reads.
#![tactic(auto)]

pub mod bytes;
pub mod text;
