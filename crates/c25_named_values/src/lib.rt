//! Values of expressions of the assembler over names that are looked up elsewhere.
#![tactic(auto)]

pub mod names;
pub mod no_value;
mod tokens;
pub mod value;
