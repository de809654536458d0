//! The symbols that the lines of a source define, and the names that they use.
#![tactic(auto)]

pub mod used_names;
pub mod uses;
