//! The lines that begin a macro of the name that a line gives to a macro again (36).

ghost use Rattle.std.specs.Option.{option_map};
ghost use Rattle.std.specs.Prelude.{◌≡◌, IfOk, option_and_then, string_bytes};
ghost use Rattle.c25_explain.specs.Note.{line_of};
ghost use Rattle.c25_explain.specs.TakenNames as meaning;
ghost use Rattle.c25_meaning_expansion.specs.Files.{text_named};

use crate::note::line_of;
use c25_macro::files::Files;
use c25_meaning_common::no_memory::NoMemory;
use c25_meaning_common::placed::FileLine;
use c25_meaning_language::statement::FaultKind;
use c25_outline::taken;
use std::alloc::Global;

/// The line of this number of a file, if there is one.
fn line_in<'a>(files: &'a Files, file: &str, line: usize) -> Option<&'a str>
    ensures { option_map (λ text. text.now) result ≡ option_and_then (λ text. line_of text line) (text_named files.now file.now) }
{
    match files.text(file) {
        Some(text) => line_of(text, line),
        None => None,
    }
}

/// The lines for this line of a file, if there is such a line.
fn taken_in(alloc: Global, files: &Files, file: &str, line: usize) -> Result<String, NoMemory>
    ensures { IfOk result (λ text. string_bytes text ≡ meaning.taken_in files.now file.now line (option_and_then (λ text. line_of text line) (text_named files.now file.now))) }
{
    match line_in(files, file, line) {
        Some(text) => taken::taken_text(alloc, files, FileLine { file, line }, text),
        None => Ok(String::new(alloc)),
    }
}

/// The lines that begin a macro of the name that this line gives to a macro again, where a fault of this kind is
/// reported for it; empty for other faults than 36, and where no file has the line.
pub(crate) fn taken_text(
    alloc: Global,
    files: &Files,
    file: &str,
    line: usize,
    kind: FaultKind,
) -> Result<String, NoMemory>
    ensures { IfOk result (λ text. string_bytes text ≡ meaning.taken_at files.now file.now line kind) }
{
    match kind {
        FaultKind::Redefined => taken_in(alloc, files, file, line),
        _ => Ok(String::new(alloc)),
    }
}
