//! The tasks of the program, over any files, command line, readers and writers.
#![tactic(auto)]

mod assembly;
mod build_to_disk;
mod building;
mod checking;
mod copies;
mod counted;
mod counting;
mod debugging;
mod definitions;
mod disassembly;
mod explaining;
mod gaps;
mod image_runs;
mod image_texts;
mod images;
pub mod laws;
mod linking;
mod program;
mod prompting;
mod report;
mod roms;
mod running;
mod standard_input;
mod symbols;
mod system;
mod task;
mod texts;
mod writing;

pub use program::{Streams, run_program, run_words};
pub use system::run_on;
