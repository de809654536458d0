//! The task `move`: the new files of old sources are made, compared with the old program, and written; the report is
//! printed.
#![tactic(auto)]

mod block_lines;
mod blocks;
mod bss_command;
mod bss_given;
mod bss_place;
mod bss_text;
pub mod compared;
mod difference_text;
mod differing;
mod holes;
pub mod made;
pub mod making;
mod moving;
pub mod old_words;
mod paging;

pub use moving::move_sources;
