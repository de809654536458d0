//! Modules of relocatable words, linked into the words of a program.
#![tactic(auto)]

mod bases;
mod definitions;
mod described;
mod fields;
mod image;
mod layout;
mod lines;
mod linking;
mod loading;
mod marks;
mod misfits;
mod placed_items;
mod uses;
mod values;

pub use c25_map::read_map;
pub use image::Image;
pub use linking::link;
pub use misfits::{Misfit, first_misfit};
