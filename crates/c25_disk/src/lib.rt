//! The files of the program: which texts are read, and which files are written.
//!
//! Everything goes through the trait [`Disk`], so that contracts can say which text of which name is read and
//! written.
#![tactic(auto)]

mod ahead;
mod attempts;
mod binary;
mod copies;
pub mod disk;
pub mod fault;
pub mod refusal;
mod sources;
pub mod system;
pub mod work;
mod writing;

pub use binary::read_binary;
pub use c25_files::{CannotRead, read_text};
pub use copies::with_copies;
pub use sources::{read_file, read_sources};
pub use writing::{Output, write_outputs};
