//! The disassembler: modules, and the words of hex texts, as text, instruction by instruction.
#![tactic(auto)]

mod index;
mod instruction_reader;
mod item_places;
pub mod laws;
mod line;
mod module;
mod notes;
mod section;
mod words;

pub use module::disassemble_module;
pub use words::disassemble_words;
