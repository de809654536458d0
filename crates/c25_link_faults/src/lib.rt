//! All faults of modules that are linked under a command, and what each of them is about.
#![tactic(auto)]

mod all;
mod definitions;
mod lacking;
mod lines;
mod names;
mod overlaps;
mod ranges;
mod sections;
mod sites;
mod spans;
mod unfits;
mod uses;

pub use all::all_link_faults;
pub use overlaps::{Overlap, overlap_of};
pub use sites::{Site, definition_sites, local_sites, use_sites};
pub use spans::Span;
pub use unfits::{Unfit, unfit_of};
