//! Tests of the processor through public calls: fields of words (`c25_bits`), the instruction set
//! (`c25_isa`), the data path (`c25_alu`), single steps (`c25_core`), the board and its samples
//! (`c25_board`), the debugger (`c25_debug`), and the bus that tests are made with.
#![tactic(auto)]

pub mod bench;
#[cfg(test)]
mod bits;
#[cfg(test)]
mod board;
#[cfg(test)]
mod data_path;
#[cfg(test)]
mod names;
#[cfg(test)]
mod public_calls;
#[cfg(test)]
mod samples;
#[cfg(test)]
mod steps;
#[cfg(test)]
mod sweep;
#[cfg(test)]
mod values;
