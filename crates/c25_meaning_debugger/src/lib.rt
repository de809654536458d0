//! What a debugger answers to the commands of a script; and the law that it gives the same answers over words
//! and over statements.
#![tactic(auto)]

pub mod laws;
