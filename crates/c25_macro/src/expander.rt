//! The expander.

use crate::stage::Stage;
use c25_files::files::Files;
use std::alloc::Global;

/// The lines of a module, with its macros, loops, conditions, substitution symbols and copied files expanded
/// (SPRU018, "Macro Language" and "Assembler Directives").
#[derive(Drop)]
pub struct Expander<'a> {
    pub(crate) alloc: Global,
    pub(crate) files: &'a Files,
    pub(crate) name: &'a str,
    pub(crate) stage: Stage<'a>,
}
