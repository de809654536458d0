//! The symbols of a linked program by name, local ones too, and how many words of its memories are used.
#![tactic(auto)]

mod digits;
pub mod entries;
pub mod laws;
mod order;
pub mod parts;
mod ranges;
mod used;
mod writing;

pub use writing::write_symbols;
