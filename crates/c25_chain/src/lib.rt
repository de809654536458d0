//! The tool chain from the texts of sources to a run, or to the answers of a debugger's script.
#![tactic(auto)]

mod answers;
pub mod built;
pub mod chain;
mod debugging;
pub mod fault;
mod fault_text;
mod inspection;
pub mod laws;
pub mod linked;
pub mod modules;
mod output;
pub mod page;
pub mod ready;
mod run;
mod script;
pub mod sources;

pub use built::build;
pub use chain::{RunTexts, chain_of, make_ready, run_chain};
pub use debugging::debug_chain;
pub use fault_text::{write_fault, write_refusal};
pub use inspection::where_it_stands;
pub use linked::link_modules;
pub use modules::assemble_all;
pub use output::write_run;
pub use run::{RunResult, board_of, run_board};
pub use sources::{assemble_module, assemble_source};
