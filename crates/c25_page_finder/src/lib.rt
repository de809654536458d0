//! Finds what is known of a program's data pages, as a table that c25_pages can verify.
//!
//! Nothing is claimed of what is found: a table counts only once it is verified. `search` follows the program from a
//! reset, with `joined` where two ways meet; `acting` follows one instruction, `activations` has the routines that
//! were called, each from one known state, and `made` makes the table of those that are reached in the end.
#![tactic(auto)]

mod acting;
mod activations;
mod joined;
mod made;
mod search;

pub use search::find_table;
