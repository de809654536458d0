//! Laws of assembling and of programs, each the contract of a function with an empty body.
#![tactic(auto)]

pub mod assembly_laws;
pub mod program_laws;
