//! The assembler: the module of a source, and its listing where one is wanted; and where a source is refused.
//!
//! Each expanded line goes through the first phase, which knows the symbols of the lines before it, and has
//! an entry in the listing, where one is wanted. The second phase comes after the last line.
//!
//! `tracing` finds which calls of macros, copies and loops led to the line where a source is refused: it goes
//! through the source again, one rewriting after another, and keeps the lines that opened what is open. Where
//! the second phase refuses an item, it goes through the source a second time, up to the line with which that
//! item came, which is found by the item's number. With the trail comes the line as it was read: its text, and
//! what names stood for.
//!
//! `all_faults` goes over a source for all its faults: a line that the first phase refuses is left out but for
//! its label, one that expansion refuses is left out with what it would open, and where no line is refused, all
//! items are gone over.
#![tactic(auto)]

mod assembly;
mod going_over;
pub mod laws;
mod lines;
mod lines_gone_over;
mod lines_so_far;
pub mod seen_line;
mod tracing;
mod walk;

pub use assembly::{assemble, assemble_module};
pub use c25_listing::listing;
pub use c25_listing::listing::Listing;
pub use c25_phases::fault;
pub use going_over::all_faults;
pub use seen_line::SeenLine;
pub use tracing::{Refused, Traced, trace};
