//! How the program ends and what it reports, the printing of texts, and the files that are written of a
//! program.
#![tactic(auto)]

pub mod ending;
pub mod printing;
pub mod texts;
