//! The object records that spell modules: written, read, and the laws of their bytes.
//!
//! An object is `C25O`, a byte for the version, 1 or 2, and records of a tag, a four-byte length and
//! a payload: sections (1), marks of instructions (2), symbols (3) and relocations (4), in version 2
//! files (5), lines of instructions (6) and blocks of uninitialised sections (7) too, in this order,
//! and a last record (255) without payload. Numbers are big-endian. A module has exactly one
//! spelling, and no spelling begins another. Records are read from the front, each after those
//! before it, and the first fault is reported.
#![tactic(auto)]

mod codes;
mod fields;
pub mod laws;
mod module_reader;
mod named_payloads;
mod payloads;
mod writing;

pub use module_reader::read_module;
pub use writing::write_module;
