//! Expansion: the lines of a module with its macros, loops, conditions, substitution symbols and copied
//! files expanded, one after another.
#![tactic(auto)]

mod act;
pub mod answer;
mod blocks;
mod bodies;
mod bounded_state;
mod calls;
mod conditions;
mod dictionary;
mod directive;
pub mod expander;
mod expander_fault;
mod expansions;
mod frames;
mod leaving_out;
mod line;
mod lines;
mod macros;
mod operands;
mod orders;
mod stage;
mod stage_leaving_out;
mod state;
mod step;
pub mod tracer;
mod tracing;
mod values;

pub use c25_files::files;
pub use c25_files::files::Files;
pub use expander::Expander;
