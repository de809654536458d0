//! The debugger: scripts, read from texts, and sessions over a board that answer their commands.
#![tactic(auto)]

mod answers;
pub mod breakpoints;
mod memories;
pub mod script;
pub mod session;
pub mod shown;
pub mod steps;

pub use script::{Script, read_script};
pub use session::Session;
