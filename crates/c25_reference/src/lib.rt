//! The reference of instructions and directives: how each is written, what it does, and examples.
//!
//! `instructions`, `spellings` and `directives` are made of docs/manual/reference.md by docs/reference.py. `entry` has the parts of
//! an entry, and `find` finds one by name.
#![tactic(auto)]

mod directives;
mod entry;
mod find;
mod instructions;
pub mod laws;
mod spellings;

pub use entry::Entry;
pub use find::{directive_named, entry_named, instruction_named};
