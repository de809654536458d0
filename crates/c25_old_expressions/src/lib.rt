//! Expressions of old sources: whether an operand of one has the value of the operand that takes its place.
#![tactic(auto)]

mod item;
mod labels;
pub mod laws;
mod lexemes;
pub mod lines;
mod operands;
pub mod order;
mod reader;
mod reading;
mod scanner;
mod signs;
pub mod symbol;
mod values;
