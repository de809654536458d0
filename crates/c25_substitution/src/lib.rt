//! Substitution: names of a line replaced by their texts, the arguments of macro calls, and a law of lines in
//! which nothing is replaced (SPRU018, "Macro Language").
#![tactic(auto)]

pub mod arguments;
mod aside;
mod change;
mod fragments;
pub mod laws;
mod output;
pub mod parameters;
mod quoting;
pub mod strings;
pub mod substitution;
pub mod texts;
pub mod visible;
