//! Laws of the debugger: what it says of addresses is what the sources say; and a worked example. Each is the contract
//! of a function that does nothing.
#![tactic(auto)]

pub mod example_laws;
pub mod laws;
