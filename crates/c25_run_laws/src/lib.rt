//! Laws of runs and of their outputs, each the contract of a function that does nothing.
#![tactic(auto)]

pub mod outputs;
pub mod runs;
