//! Maps of linked programs: their texts, written and read.
#![tactic(auto)]

mod fields;
pub mod laws;
mod lines;
mod map;
mod map_fault;
mod map_reader;
mod numbers;
mod writing;

pub use map::{GlobalSymbol, Map, OutputSection, Part};
pub use map_fault::MapFault;
pub use map_reader::read_map;
pub use writing::{push_symbols, write_map};
