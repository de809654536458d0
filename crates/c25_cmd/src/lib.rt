//! Command files of the linker, read.
//!
//! A command file may name the entry (`-e name`), give the ranges of both pages (`MEMORY`) and say
//! where sections are to stand (`SECTIONS`), each once and in any order.
#![tactic(auto)]

mod bytes;
mod command;
mod command_reader;
mod grammar;
pub mod laws;
mod lexer;
mod line_numbers;
mod memory;
mod parts;
mod ranges;
mod refused;
mod section_lines;
mod sections;
pub mod taken;
mod token;
mod words;

pub use command::{Command, MemoryRange, Placing, Target};
pub use command_reader::read_command;
pub use refused::{RefusedAt, refused_at};
pub use section_lines::section_line;
