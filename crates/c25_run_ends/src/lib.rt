//! Why a run left the code: the instructions at which it stood, as the debugger shows them, and what is at the
//! address where it stopped; and what a run did not use of its inputs.
#![tactic(auto)]

mod cause;
mod ground;
mod note;
mod pieces;
mod standing;

pub use note::end_note;
