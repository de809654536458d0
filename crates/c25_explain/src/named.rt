//! The names of the files that a task reads.

use c25_options::task::RunFiles;

/// The names of the files that a task reads.
#[derive(Clone, Copy)]
pub struct NamedFiles<'a> {
    /// The names of the command file, the samples and the schedule, where there are any.
    pub files: RunFiles<'a>,
    /// The name of the debugger's script, where there is one.
    pub script: Option<&'a str>,
    pub sources: &'a [&'a str],
    /// The names of the objects, or that of the hex text that is disassembled.
    pub objects: &'a [&'a str],
}
