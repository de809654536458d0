//! What all subjects share: failures (out of memory, or a fault), results of definitions, the kinds of byte,
//! digits, texts of one item a line, and the fields of words that are filled when modules are linked; with
//! the functions on bytes and digits that every reader of a text calls.
#![tactic(auto)]

pub mod bytes;
pub mod digits;
pub mod failure;
pub mod no_memory;
pub mod placed;
pub mod relocation;
pub mod runs;
