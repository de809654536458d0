//! The files of a source and their expansion: macros, loops, conditions, copied files, and the trail of the
//! lines that opened them.
#![tactic(auto)]

pub mod expansion;
