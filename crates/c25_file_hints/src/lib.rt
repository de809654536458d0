//! Short remarks on files that are refused: what is wanted in a line of samples, of a schedule or of a script,
//! what is missing or wanted in a command file, and where its parts are, and what a file may be that is no object.
#![tactic(auto)]

pub mod braces;
pub mod cause;
pub mod command_files;
mod comments;
pub mod kind;
pub mod laws;
pub mod parts;
mod samples;
mod schedule;
mod script;
pub mod wanted;
mod words;

pub use command_files::command_hint;
pub use parts::part_line;
pub use samples::sample_cause;
pub use schedule::entry_cause;
pub use script::command_cause;
pub use wanted::wanted_hint;
