//! Laws of what the chain answers, which need all of its crates. Each is the contract of a function that calls the laws
//! that it rests on.
#![tactic(auto)]

pub mod answers;
pub mod image_words;
pub mod laws;
pub mod same_words;
