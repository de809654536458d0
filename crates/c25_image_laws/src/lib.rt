//! Laws of images of the same words, each the contract of a function that does nothing.
#![tactic(auto)]

pub mod runs;
