//! Steps of a board, counted by the addresses of the instructions that act and of the branches that pass.
#![tactic(auto)]

pub mod counting;
pub mod counts;
