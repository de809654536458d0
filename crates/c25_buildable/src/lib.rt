//! Parts of an image whose texts are built to its words: as they are, where nothing hinders that, or without their names.
#![tactic(auto)]

mod bare;
mod buildable;
mod names;
mod runs;
mod table;
mod targets;

pub use buildable::buildable_parts;
