//! Linking: command files, the places of sections, the printed map, and the words and instructions of a
//! program.
#![tactic(auto)]

pub mod command_fault;
pub mod command_token;
pub mod link_fault;
