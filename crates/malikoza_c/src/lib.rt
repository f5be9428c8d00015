// The C interface: each entry of crate malikoza under its name, with the same promise. include/malikoza.h declares them.
#![tactic(auto)]

mod files;
mod leaves;
mod recover;
mod stations;
mod steps;
