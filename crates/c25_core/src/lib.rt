//! The processor: one step at a time, over any bus (SPRU014).
#![tactic(auto)]

mod accumulator;
mod acting;
mod advance;
mod bus;
mod execute;
mod families;
mod fast;
mod fetch;
mod interrupt;
mod memory;
mod observer;
mod operand;
mod processor;
mod stack;
mod status;
mod step;

pub use bus::{Bus, Halt, SinkFailed, Tick};
pub use fast::awake::Streak;
pub use fast::copied::CopiedInsn;
pub use fast::quick::keeps_words;
pub use fast::quick_insn::{QuickInsn, quick_of};
pub use observer::Observer;
pub use processor::Core;
