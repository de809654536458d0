//! Sources on a disk, debugged at the prompt: their program is linked, and the commands of a reader are answered
//! over it, each before the next is read.
#![tactic(auto)]

pub mod asking;
mod debugged;
mod inputs;
pub mod program;
pub mod prompting;
mod session;
mod start;
mod texts;
pub mod unread;
