//! Binary images, as EPROMs hold them: the words of the bytes of one file or of a pair of files, at their addresses.
#![tactic(auto)]

pub mod binary_fault;
mod reading;

pub use reading::{words_of_file, words_of_pair};
