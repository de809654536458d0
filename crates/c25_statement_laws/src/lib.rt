//! Laws of names, lines and listings: those of a program are what its sources say. Each is
//! the contract of a function with an empty body.
#![tactic(auto)]

pub mod listing_laws;
pub mod name_laws;
