//! The fault for which the assembler does not read a line as it stands, before macros and substitution symbols.
#![tactic(auto)]

mod directives;
mod expansion_lines;
mod reading;

pub use reading::fault_in;
