//! Where the sections of a program stand: the modules' sections of one name, placed as one.
#![tactic(auto)]

mod blocks;
mod faults;
pub mod laws;
mod missing;
mod names;
mod outputs;
mod placement;
mod places;
mod ranges;
mod requests;
mod room;
mod runs;

pub use faults::{PlacingFailure, refusal};
pub use missing::{MissingRange, missing_range};
pub use outputs::body_size;
pub use placement::{Place, Placement};
pub use places::{good_places, place_sections};
