//! The texts of sources by their names, given or read from readers; and the lines of these texts with their
//! places.
#![tactic(auto)]

pub mod files;
mod first;
mod passage;
mod rows;
pub mod text;
mod whole_input;

pub use first::count_lines;
pub use passage::Passage;
pub use rows::{Row, Rows};
pub use whole_input::{CannotRead, read_bytes, read_text};
