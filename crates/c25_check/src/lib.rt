//! What `check` finds in sources: the faults that keep their program from being built, or its warnings.
#![tactic(auto)]

mod check;
pub mod laws;
mod places;
mod showing;
mod sources;

pub use check::Checked;
pub use sources::{Asked, check_sources};
