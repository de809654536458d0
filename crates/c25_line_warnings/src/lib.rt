//! Warnings of a line: what is allowed in it, and is most likely a mistake.
//!
//! `labels`, `shifts`, `memories` and `reach` each find some of them. `said` has what a line says, and `marks` what
//! instructions do, as far as these need it.
#![tactic(auto)]

pub mod labels;
pub mod laws;
mod marks;
pub mod memories;
pub mod reach;
pub mod said;
pub mod shifts;
pub mod source_line;
pub mod warning_kind;
