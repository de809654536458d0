//! Laws of linked programs that rest on what the linker's own proofs say, each the contract of a function with an empty
//! body.
#![tactic(auto)]

pub mod programs;
