//! Laws of linked programs and of the places of their parts, each the contract of a function with an empty
//! body.
#![tactic(auto)]

pub mod linking;
pub mod placing;
