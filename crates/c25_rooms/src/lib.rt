//! What to know of a section that does not fit: how many words of the ranges that it may be placed in are free, the
//! largest hole there, and the first of its blocks that crosses a page wherever the section stands.
#![tactic(auto)]

mod bases;
mod blocks;
mod crossing;
mod details;
mod marks;
mod measure;
mod rooms;
mod space;

pub use blocks::SectionBlock;
pub use crossing::Crossing;
pub use details::{Details, details_of};
pub use rooms::Room;
