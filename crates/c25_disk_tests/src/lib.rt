//! Tests of reading and writing files, with the readers and the files in memory that other tests use too.
#![tactic(auto)]

pub mod readers;
pub mod shelf;
#[cfg(test)]
mod sources;
#[cfg(test)]
mod system;
#[cfg(test)]
mod texts;
