//! A short remark on why a line of a source is refused: what the user is to write, or the word that is wrong.
#![tactic(auto)]

pub mod cause;
mod defined;
mod forms;
pub mod hint;
mod indirect;
mod macros;
mod operands;
mod remarks;
mod similar;
mod tables;
mod texts;
mod values;
mod words;

pub use remarks::{hint_on, remark, remark_among};
