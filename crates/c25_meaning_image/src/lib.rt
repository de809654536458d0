//! Images of programs: words by their addresses, and the places of instructions.
#![tactic(auto)]

pub mod mark;
pub mod marks;
pub mod word_list;
pub mod word_map;
