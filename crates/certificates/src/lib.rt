// The certificate of a speed: it lies between the bounds of crate `limits` and every row admits it, read from
// its bytes; with the worst figures. Document 01, "Recovery", decides.
#![tactic(auto)]

pub mod certificate;
