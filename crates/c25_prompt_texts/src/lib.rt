//! What the debugger's prompt shows of registers, words and outputs.
#![tactic(auto)]

pub mod fields;
pub mod inputs;
pub mod jumps;
pub mod outputs;
pub mod source_lines;
pub mod values;
