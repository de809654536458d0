//! Runs that are printed as they go: the outputs of some steps at a time, and then how the run ended. No
//! output is kept, and no memory is needed after the first step but for the registers after the run, where
//! they are asked for.
#![tactic(auto)]

pub mod batch;
mod lines;
mod printing;
mod run;
mod timed;

pub use run::{LeftAt, PrintedRun, RunDetails, print_run};
