//! Modules of relocatable words, and the object records that hold them.
#![tactic(auto)]

pub mod object;
