//! What the words of an image are taken for, as a source: hints of a user, the flow through the words, parts
//! of rows, and their texts.
#![tactic(auto)]

mod blank;
mod cells;
pub mod course;
mod erased;
mod fitting;
mod flow;
pub mod hint;
mod hint_line;
mod hint_reader;
mod hinted;
mod instruction_text;
mod laying_out;
pub mod layout;
mod naming;
mod row_text;
mod rows;
mod standing;
mod texts;

pub use hint_reader::read_hints;
pub use laying_out::parts_of_words;
pub use rows::words_in;
pub use texts::{command_text, source_text};
