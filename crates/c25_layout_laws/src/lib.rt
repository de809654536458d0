//! Laws of the texts of layouts, each the contract of a function that calls the laws that it rests on.
#![tactic(auto)]

pub mod assembling;
pub mod layouts;
pub mod lines;
