//! Listings: the lines of a module next to the offsets and the words that they made.
#![tactic(auto)]

mod flags;
pub mod listing;
mod printing;
mod text;
