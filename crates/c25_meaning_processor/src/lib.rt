//! The processor: the data path in whole numbers, registers and memories, what each instruction and each step
//! does, runs; the samples, schedules and scripts that drive a simulation; and breakpoints.
#![tactic(auto)]

pub mod accumulator;
pub mod lines;
pub mod registers;
pub mod sample;
pub mod schedule;
pub mod script;
pub mod stop;
