//! How warnings are shown, each on a line.

ghost use Rattle.std.specs.Prelude.{◌≡◌, ◌++◌, IfOk, OnOk, string_bytes};
ghost use Rattle.c25_warnings.specs.Shown as meaning;
ghost use Rattle.c25_warnings.specs.View.{link_warning_of, link_warnings_view, program_warnings_of, warning_of, warnings_view};

use crate::warning::{LinkWarning, ProgramWarnings, Warning};
use c25_meaning_common::no_memory::NoMemory;
use std::alloc::Global;

/// The line of a warning of a source, without a line feed: `a.asm:3: warning Unused`.
pub fn write_warning(alloc: Global, warning: &Warning<'_>) -> Result<String, NoMemory>
    ensures { IfOk result (λ text. string_bytes text ≡ meaning.warning_text (warning_of warning.now)) }
{
    let file = warning.file;
    let line = warning.line;
    let name = warning.kind.name();
    Ok(format!(in alloc; "{file}:{line}: warning {name}")?)
}

/// The line of a warning of a command file, without a line feed: `link:gone: warning AbsentSection`.
pub fn write_link_warning(alloc: Global, warning: &LinkWarning<'_>) -> Result<String, NoMemory>
    ensures { IfOk result (λ text. string_bytes text ≡ meaning.link_warning_text (link_warning_of warning.now)) }
{
    let section = warning.section;
    let name = warning.kind.name();
    Ok(format!(in alloc; "link:{section}: warning {name}")?)
}

/// Appends the lines of warnings of sources.
fn push_warnings(alloc: Global, text: &mut String, warnings: &[Warning<'_>]) -> Result<(), NoMemory>
    ensures { OnOk result (string_bytes text.new ≡ string_bytes text.old ++ meaning.warning_lines (warnings_view warnings.now)) }
{
    for warning in warnings {
        let line = write_warning(alloc, warning)?;
        text.push_str(line.as_str())?;
        text.push('\n')?;
    }
    Ok(())
}

/// Appends the lines of warnings of a command file.
fn push_link_warnings(
    alloc: Global,
    text: &mut String,
    warnings: &[LinkWarning<'_>],
) -> Result<(), NoMemory>
    ensures { OnOk result (string_bytes text.new ≡ string_bytes text.old ++ meaning.link_warning_lines (link_warnings_view warnings.now)) }
{
    for warning in warnings {
        let line = write_link_warning(alloc, warning)?;
        text.push_str(line.as_str())?;
        text.push('\n')?;
    }
    Ok(())
}

/// The warnings of a program, each on a line: those of its sources, and then those of its command file.
///
/// `NoMemory` where memory runs out.
pub fn write_warnings(alloc: Global, warnings: &ProgramWarnings<'_>) -> Result<String, NoMemory>
    ensures { IfOk result (λ text. string_bytes text ≡ meaning.program_text (program_warnings_of warnings.now)) }
{
    let mut text = String::new(alloc);
    push_warnings(alloc, &mut text, warnings.of_lines.as_slice())?;
    push_link_warnings(alloc, &mut text, warnings.of_sections.as_slice())?;
    Ok(text)
}
