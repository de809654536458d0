//! The earlier line that a fault is about: where a name that is defined again was defined first, and which line copies
//! a file that cannot be read.
//!
//! For a name a source is gone through again, one rewriting after another, with the first phase, up to the line with
//! which the name gets its value. For a file the sources are traced until they ask for it.
#![tactic(auto)]

mod copying;
mod defined;
mod lines;
mod names;
mod shown;
mod walk;

pub use copying::copying_text;
pub use shown::earlier_text;
