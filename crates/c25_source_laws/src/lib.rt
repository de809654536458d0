//! Laws of what sources reserve, each the contract of a function with an empty body.
#![tactic(auto)]

pub mod linked_laws;
pub mod reservation_laws;
