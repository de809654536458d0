//! Lines at the prompt of the debugger, read as commands, with names and lines of sources for addresses.
#![tactic(auto)]

pub mod address;
pub mod command;
mod expression;
pub mod line;
pub mod program;
mod verb;
