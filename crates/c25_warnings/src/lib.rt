//! Warnings: what is allowed in a source or in a command file, and is most likely a mistake.
//!
//! `lines` expands a source to its lines, each with the words that it makes. `rules` has all warnings of a line, with
//! `data` for words that nothing reaches, and `source` those of sources. `linking` has those of a command file, and `program` all of a program, which
//! `shown` writes.
#![tactic(auto)]

mod data;
pub mod lines;
mod linking;
mod program;
mod reports;
mod rules;
mod shown;
mod source;
mod warning;

pub use c25_line_warnings::warning_kind::WarningKind;
pub use linking::Linked;
pub use program::warnings_of_program;
pub use shown::{write_link_warning, write_warning, write_warnings};
pub use warning::{LinkWarning, LinkWarningKind, ProgramWarnings, Warning};
