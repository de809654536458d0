//! The earlier line as it is shown.

ghost use Rattle.std.specs.Option.{option_map};
ghost use Rattle.std.specs.Prelude.{◌≡◌, IfOk, map, string_bytes};
ghost use Rattle.c25_macro.specs.Expander.{shown};
ghost use Rattle.c25_earlier.specs.Shown as meaning;

use crate::defined::earlier_line;
use c25_files::files::Files;
use c25_macro::answer::ExpLine;
use c25_meaning_common::no_memory::NoMemory;
use c25_meaning_language::statement::FaultKind;
use std::alloc::Global;

/// A line with its file and number, as it was read.
fn first_text(alloc: Global, line: &ExpLine<'_>) -> Result<String, NoMemory>
    ensures { IfOk result (λ text. string_bytes text ≡ meaning.first_text (shown line.now)) }
{
    let file = line.file;
    let number = line.line;
    let text = line.text.as_str();
    Ok(format!(in alloc; "  first: {file}:{number}: {text}\n")?)
}

/// Where the name was defined first that the first line that is refused in these sources defines again; empty where
/// no line of its source defines it.
fn definition_text(alloc: Global, files: &Files, sources: &[&str]) -> Result<String, NoMemory>
    ensures { IfOk result (λ text. meaning.ShowsDefinition files.now (map (λ s. s.now) sources.now) (string_bytes text)) }
{
    match earlier_line(alloc, files, sources)? {
        Some(line) => first_text(alloc, &line),
        None => Ok(String::new(alloc)),
    }
}

/// The earlier line that a fault of this kind is about, which is the first fault of these sources: for a name that is
/// defined again (26) where it was defined first, as that line was read; empty for other faults, for names that are
/// predefined, and where the line itself defines the name twice.
pub fn earlier_text(
    alloc: Global,
    files: &Files,
    sources: &[&str],
    kind: FaultKind,
) -> Result<String, NoMemory>
    ensures { IfOk result (λ text. meaning.ShowsFor files.now (map (λ s. s.now) sources.now) kind (string_bytes text)) }
{
    match kind {
        FaultKind::Defined => definition_text(alloc, files, sources),
        _ => Ok(String::new(alloc)),
    }
}
