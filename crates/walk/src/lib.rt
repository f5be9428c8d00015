// A forward walk along a strap: recovery station by station, each step with the speed that the one before it committed. Document 02, request 1, decides.
#![tactic(auto)]

pub mod state;
pub mod step;
