//! The direct operands of sources that are numbers: of those from 128 on the data page that is meant can be read off the
//! number, of which the object keeps the low seven bits alone.
//!
//! `line` has those of a line, `sources` those of all lines of sources; `laws` says that a source that is assembled has all
//! its lines.
#![tactic(auto)]

pub mod laws;
mod line;
mod sources;

pub use sources::absolute_operands;
