//! Old sources of a disk, read and moved: the files of a task, what becomes of their lines, the new files and the report.
#![tactic(auto)]

pub mod all;
pub mod code_page;
pub mod command;
mod command_lines;
mod copies;
pub mod gathered;
mod gathering;
pub mod holed;
pub mod moved;
pub mod names;
pub mod new;
pub mod notes;
pub mod old;
pub mod program;
pub mod refusals;
mod remarks;
pub mod report;
pub mod rows;
mod spelling;
pub mod style;
pub mod texts;
