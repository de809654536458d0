//! The source of an image on a disk: what `dis` is asked for, the words of the files of an image, the hints, and the
//! two texts that are made of them.
#![tactic(auto)]

pub mod asked;
pub mod fault;
mod fault_line;
mod hints;
pub mod made;
mod mistake;
mod told;
mod words;

pub use asked::{dis_asked, first_file, run_asked};
pub use fault_line::{image_line, not_made_line};
pub use made::{made_names, made_source, overwrites};
pub use mistake::Mistake;
