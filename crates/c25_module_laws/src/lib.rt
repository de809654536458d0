//! Laws of the modules of sources, each the contract of a function with an empty body.
#![tactic(auto)]

pub mod assembly_laws;
