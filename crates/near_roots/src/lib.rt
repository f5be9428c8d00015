// The square root and hypot where a guess in floats is seen to be right. It is tested in whole numbers, exactly: nothing has to be known of a guess.
#![tactic(auto)]

mod floats;
pub mod length;
mod nearest;
pub mod square_root;
