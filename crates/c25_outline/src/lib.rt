//! What the texts of files show before expansion: the macros that they define, the lines that begin a macro of a name,
//! and the blocks that are open at a line.
#![tactic(auto)]

pub mod blocks;
pub mod macros;
pub mod taken;
