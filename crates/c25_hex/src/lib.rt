//! Intel hex texts: their definition, their reader and their writer.
#![tactic(auto)]

pub mod hex_fault;
mod hex_reader;
mod kind;
pub mod laws;
mod line;
mod reader;
mod state;
mod stretch;
mod words;
mod writer;
mod writing;

pub use hex_reader::read_hex;
pub use writing::write_hex;
