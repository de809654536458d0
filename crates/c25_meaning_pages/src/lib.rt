//! Data pages: what is known of a program before each statement, when it is true in every run, and what is
//! supposed of a run.
#![tactic(auto)]

pub mod known;
