//! The texts that a debugger answers with, but for symbols.

mod breakpoints;
mod digits;
mod instructions;
mod line;
pub(crate) mod memory;
mod registers;
mod steps;
mod words;

pub(crate) use breakpoints::{push_cleared, push_set};
pub(crate) use instructions::{push_instruction, push_instructions, push_line};
pub(crate) use line::MOST_BYTES;
pub(crate) use registers::{push_registers, push_stack};
pub(crate) use steps::push_halted;
pub(crate) use words::push_words;
