//! The EPROMs of a program: their words, the bytes of each device, what a programmer shows of them, and the words
//! of bytes that were read back.
#![tactic(auto)]

pub mod byte_order;
mod bytes;
mod checks;
pub mod fault;
pub mod files;
mod filling;
pub mod laws;
mod lines;
pub mod made;
mod reading;
pub mod shape;

pub use bytes::{file_bytes, high_bytes, low_bytes};
pub use checks::{crc32, sum_of};
pub use files::rom_files;
pub use filling::rom_words;
pub use lines::{fault_line, lines_of};
pub use reading::{file_words, pair_words};
