//! Images as sources: the texts of the words of an image, and the law that these are built to its words.
#![tactic(auto)]

pub mod laws;
pub mod source;

pub use source::{NotMade, source_of_words};
