//! What the tasks read from a disk: sources, the files that are named next to them, objects, and the
//! files that sources copy.
#![tactic(auto)]

pub mod files;
pub mod objects;
pub mod sources;
pub mod work;
