//! Old sources moved to what the assembler reads: texts in; lines, and what is reported of them, out.
#![tactic(auto)]

mod bytes;
mod calls;
mod code_page;
mod judged;
pub mod laws;
pub mod line;
pub mod moved_line;
pub mod region;
mod regions;
mod rows;
mod source;

pub use bytes::{Decoded, decode};
pub use code_page::CodePage;
pub use line::OldSource;
pub use moved_line::{LineEnd, MovedLine};
pub use source::{move_source, new_text};
