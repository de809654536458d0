//! The instruction set in the form of the User's Guide, and laws that it is the instruction set of `c25_meaning_instructions`
//! and `c25_meaning_processor`.
#![tactic(auto)]

pub mod laws;
