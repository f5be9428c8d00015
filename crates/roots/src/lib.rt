// The square root and hypot, each the nearest double: a guess that is right, or worked out from one floor root of a number of two limbs.
#![tactic(auto)]

mod floor_root;
pub mod hypot;
pub mod square_root;
