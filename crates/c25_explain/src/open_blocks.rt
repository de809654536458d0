//! The line that shows which block is open where one is not closed (31), or where a line ends none (32).

ghost use Rattle.std.specs.Prelude.{◌≡◌, IfOk, option_map, string_bytes};
ghost use Rattle.c25_explain.specs.OpenBlocks as meaning;
ghost use Rattle.c25_outline.specs.Blocks.{innermost};

use crate::note::line_of;
use c25_macro::files::Files;
use c25_meaning_common::no_memory::NoMemory;
use c25_meaning_language::statement::FaultKind;
use c25_outline::blocks::innermost;
use std::alloc::Global;

/// The line of this number of a file with this text, as it is shown.
fn open_line(alloc: Global, file: &str, text: &str, number: usize) -> Result<String, NoMemory>
    ensures { IfOk result (λ line. string_bytes line ≡ meaning.open_line file.now text.now number) }
{
    let line = match line_of(text, number) {
        Some(line) => line,
        None => "",
    };
    Ok(format!(in alloc; "  open: {file}:{number}: {line}\n")?)
}

/// The line that began the innermost block of a text that is open after the line `last`.
fn open_in(alloc: Global, file: &str, last: usize, text: &str) -> Result<String, NoMemory>
    ensures { IfOk result (λ line. string_bytes line ≡ meaning.open_lines file.now text.now (innermost last text.now)) }
{
    match innermost(alloc, text, last)? {
        Some(number) => open_line(alloc, file, text, number),
        None => Ok(String::new(alloc)),
    }
}

/// After which line blocks are looked for: after the line of 31, and before that of 32.
fn last_for(kind: FaultKind, line: usize) -> Option<usize>
    ensures { result ≡ meaning.last_for kind line }
{
    match kind {
        FaultKind::OpenBlock => Some(line),
        FaultKind::StrayEnd => Some(line.saturating_sub(1)),
        _ => None,
    }
}

/// The line that began the innermost block that is open at a fault of this kind in this line; empty where there is
/// none, and for other faults than 31 and 32.
pub(crate) fn open_text(
    alloc: Global,
    files: &Files,
    file: &str,
    line: usize,
    kind: FaultKind,
) -> Result<String, NoMemory>
    ensures { IfOk result (λ text. string_bytes text ≡ meaning.open_at files.now file.now (meaning.last_for kind line)) }
{
    match (last_for(kind, line), files.text(file)) {
        (Some(last), Some(text)) => open_in(alloc, file, last, text),
        _ => Ok(String::new(alloc)),
    }
}
