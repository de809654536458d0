//! The warnings of a program.

ghost use Rattle.std.specs.Prelude.{◌≡◌, IfOk, map};
ghost use Rattle.c25_warnings.specs.Program as meaning;
ghost use Rattle.c25_warnings.specs.View.{linked_of, program_warnings_of};

use crate::linking::{Linked, warnings_of_link};
use crate::source::warnings_of_sources;
use crate::warning::ProgramWarnings;
use c25_files::files::Files;
use c25_meaning_common::no_memory::NoMemory;
use std::alloc::Global;

/// The warnings of the sources of these names, whose modules are linked, one source after the other, in the order
/// of their lines after expansion; then those of the command file under which they are linked. A line has at most
/// one warning of a kind.
///
/// `NoMemory` where memory runs out.
pub fn warnings_of_program<'a>(
    alloc: Global,
    files: &'a Files,
    sources: &[&'a str],
    linked: Linked<'a>,
) -> Result<ProgramWarnings<'a>, NoMemory>
    ensures { IfOk result (λ w. program_warnings_of w ≡ meaning.warnings_of_program files.now (map (λ n. n.now) sources.now) (linked_of linked.entry)) }
{
    let of_lines = warnings_of_sources(alloc, files, sources, linked)?;
    let of_sections = warnings_of_link(alloc, linked.modules, linked.command, linked.places)?;
    Ok(ProgramWarnings {
        of_lines,
        of_sections,
    })
}
