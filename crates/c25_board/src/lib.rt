//! The board: memories and ports around the processor, runs under a schedule, with breakpoints or without;
//! samples and schedules, read from texts.
#![tactic(auto)]

mod bits;
pub mod board;
pub mod breakpoints;
mod clock;
mod copies;
mod devices;
pub mod fixed_sink;
mod lists;
mod observed;
mod one_step;
mod places;
pub mod ports;
mod prepared;
mod quick;
pub mod run_to;
pub mod samples;
pub mod schedule;

pub use board::{Board, Outcome};
pub use fixed_sink::FixedSink;
pub use ports::{Feed, ListSink, NoSamples, Sink};
pub use samples::{Samples, read_samples};
pub use schedule::{Schedule, read_schedule};
