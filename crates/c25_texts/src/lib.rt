//! Small texts: items read one a line, numbers read in decimal and hexadecimal, bytes and words written in
//! hexadecimal digits (`digits`), pieces appended to a text (`appending`).
#![tactic(auto)]

pub mod appending;
pub mod digits;
mod item_reader;
mod numbers;
mod words;

pub use item_reader::{LineFormat, read_items};
pub use numbers::{decimal_of, hexadecimal_of};
pub use words::is_word;
