//! How often each line of the sources acts in a run, and how often its conditional branches are taken, as a text that lcov reads and next to the lines.
#![tactic(auto)]

mod branches;
mod lcov;
mod lines;
mod list;
mod run;

pub use lcov::lcov_text;
pub use list::list_text;
pub use run::{LineCounts, coverage};
