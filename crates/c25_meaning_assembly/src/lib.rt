//! Assembling: what a line says after expansion, sections and symbols, the words that lines make, listings,
//! and the module of a source.
#![tactic(auto)]

pub mod assembly;
