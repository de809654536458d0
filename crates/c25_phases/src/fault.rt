//! Why a source has no module.

use c25_meaning_common::placed::{FileLine, Placed};
use c25_meaning_language::statement::FaultKind;
use thiserror::Error;

/// Why a source has no module.
#[derive(Debug, Drop, Error)]
pub enum AsmFault<'a> {
    /// A line is wrong (10 to 13, 20 to 26, 31 to 36, 38, 50 to 56).
    #[error("{0}")]
    Line(Placed<FileLine<&'a str>, FaultKind>),
    /// A file that the line asks for is not there (30); at line 0 the file is the module itself.
    #[error("{file}:{line}: {}", FaultKind::NoFile)]
    NoFile {
        file: &'a str,
        line: usize,
        name: String,
    },
}
