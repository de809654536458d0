//! What a run did not use of its inputs: the samples that no `IN` read, and the interrupts of its schedule that were
//! not taken, since none of their line was enabled, or the run ended before.
#![tactic(auto)]

pub mod laws;
mod pieces;
pub mod ports;
pub mod requests;
pub mod stepping;
mod unused;
mod watching;

pub use unused::unused_text;
