//! The notes of faults of sources in front of which symbols are defined: those of their fronts; and what notes say of the
//! folders in which copied files are looked for.
#![tactic(auto)]

mod lines;
pub mod notes;
mod places;
