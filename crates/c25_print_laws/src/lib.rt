//! Laws of printed texts and of expansion, each the contract of a function with an empty body: the text that
//! is printed of an instruction, of words, or by `dis` is a source of these words.
#![tactic(auto)]

pub mod disassembly;
pub mod expansion;
pub mod instructions;
