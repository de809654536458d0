//! The command line of the program.
#![tactic(auto)]

mod arguments;
pub mod arranged;
pub mod fault;
mod link_tips;
mod matched;
mod program;
pub mod read;
mod source_tips;
pub mod task;
pub mod tips;
mod together;
