//! What the source of an image takes its words for, counted: instructions, their words, and words of data; and hints that
//! may be true of it.
#![tactic(auto)]

mod copied;
mod line;
mod places;
mod proposals;
pub mod reach;
mod referring;
mod standing;
mod tables;
mod unreached;

pub use line::reach_line;
pub use proposals::proposals_of;
pub use reach::reach_of;
