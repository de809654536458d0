//! The lines that begin a macro of the name that another line gives to a macro too, before expansion.

ghost use Rattle.std.specs.List.{flat_map};
ghost use Rattle.std.specs.Option.{option_map};
ghost use Rattle.std.specs.Prelude.{◌≡◌, ◌&&◌, ◌++◌, IfOk, OnOk, is_some, string_bytes};
ghost use Rattle.c25_meaning_expansion.specs.Rows.{rows_of};
ghost use Rattle.c25_meaning_instructions.specs.Spellings.{spelling_of};
ghost use Rattle.c25_outline.specs.Taken as meaning;

use crate::macros::macro_in;
use c25_files::files::Files;
use c25_files::{Row, Rows, count_lines};
use c25_isa::mnemonic;
use c25_meaning_common::no_memory::NoMemory;
use c25_meaning_common::placed::FileLine;
use std::alloc::Global;

/// A line of a file that begins a macro, and the name of the macro.
#[derive(Clone, Copy)]
struct MacroLine<'a> {
    file: &'a str,
    line: usize,
    name: &'a str,
}

/// Whether a name is that of a mnemonic, in upper or lower case.
fn is_mnemonic(name: &str) -> bool
    ensures { result ≡ is_some (spelling_of name.now) }
{
    mnemonic(name).is_some()
}

/// Whether a line begins a macro of a name.
fn begins(name: &str, text: &str) -> bool
    ensures { result ≡ meaning.begins name.now text.now }
{
    match macro_in(text) {
        Some(begun) => name == begun,
        None => false,
    }
}

/// Whether a line of a file stands before another line; a line of another file counts as one that does.
fn is_before(begun: &MacroLine<'_>, file: &str, line: usize) -> bool
    ensures { result ≡ meaning.is_before (meaning.begun_of begun.now) file.now line }
{
    file != begun.file || line < begun.line
}

/// Whether a line of a file stands before another line and begins a macro of the same name.
fn begins_before(begun: &MacroLine<'_>, file: &str, line: usize, text: &str) -> bool
    ensures { result ≡ (meaning.begins (meaning.begun_of begun.now).name text.now && meaning.is_before (meaning.begun_of begun.now) file.now line) }
{
    begins(begun.name, text) && is_before(begun, file, line)
}

/// A line as it is shown.
#[tactic(auto, unfolding(crate::specs::Taken::macro_text))]
fn macro_text(alloc: Global, file: &str, line: usize, text: &str) -> Result<String, NoMemory>
    ensures { IfOk result (λ shown. string_bytes shown ≡ meaning.macro_text file.now line text.now) }
{
    Ok(format!(in alloc; "  macro: {file}:{line}: {text}\n")?)
}

/// Appends a line of a file, if it stands before and begins a macro of the same name.
fn push_row(
    alloc: Global,
    begun: &MacroLine<'_>,
    file: &str,
    row: &Row<'_>,
    shown: &mut String,
) -> Result<(), NoMemory>
    ensures { OnOk result (string_bytes shown.new ≡ string_bytes shown.old ++ meaning.row_text (meaning.begun_of begun.now) file.now row.now) }
{
    let line = row.place().line;
    let text = row.text();
    if begins_before(begun, file, line, text) {
        let told = macro_text(alloc, file, line, text)?;
        shown.push_str(told.as_str()).map_err(NoMemory::from)
    } else {
        Ok(())
    }
}

/// Appends the lines of a file with this text that do.
fn push_rows(
    alloc: Global,
    begun: &MacroLine<'_>,
    file: &str,
    text: &str,
    shown: &mut String,
) -> Result<(), NoMemory>
    ensures { OnOk result (string_bytes shown.new ≡ string_bytes shown.old ++ flat_map (meaning.row_text (meaning.begun_of begun.now) file.now) (rows_of 0 text.now)) }
{
    let mut passage = Rows::of_file(0, text, count_lines(text)).into_passage();
    while let Some(row) = passage.next() {
        push_row(alloc, begun, file, &row, shown)?;
    }
    Ok(())
}

/// Appends the lines of a file that do.
#[tactic(auto, unfolding(crate::specs::Taken::file_text))]
fn push_file(
    alloc: Global,
    begun: &MacroLine<'_>,
    file: &str,
    text: Option<&str>,
    shown: &mut String,
) -> Result<(), NoMemory>
    ensures { OnOk result (string_bytes shown.new ≡ string_bytes shown.old ++ meaning.file_text (meaning.begun_of begun.now) file.now (option_map (λ t. t.now) text.entry)) }
{
    match text {
        Some(text) => push_rows(alloc, begun, file, text, shown),
        None => Ok(()),
    }
}

/// The lines of all files that stand before a line and begin a macro of the same name.
fn files_text(alloc: Global, files: &Files, begun: &MacroLine<'_>) -> Result<String, NoMemory>
    ensures { IfOk result (λ shown. string_bytes shown ≡ meaning.files_text files.now (meaning.begun_of begun.now)) }
{
    let mut shown = String::new(alloc);
    for number in 0..files.len() {
        let file = files.name(number);
        push_file(alloc, begun, file, files.text(file), &mut shown)?;
    }
    Ok(shown)
}

/// The same, or, where there is none, the line itself, which has this text.
fn begun_text(
    alloc: Global,
    files: &Files,
    begun: &MacroLine<'_>,
    text: &str,
) -> Result<String, NoMemory>
    ensures { IfOk result (λ shown. string_bytes shown ≡ meaning.begun_text files.now (meaning.begun_of begun.now) text.now) }
{
    let shown = files_text(alloc, files, begun)?;
    if shown.is_empty() {
        macro_text(alloc, begun.file, begun.line, text)
    } else {
        Ok(shown)
    }
}

/// The lines of these files, with their places, that begin a macro of the same name as this line, which has this
/// text, and stand before it in its file or anywhere in another one; where there is none, the line itself. The lines
/// are taken as they stand in the files, whether they are assembled or not. The text is empty where the line begins no
/// macro, or its name is that of a mnemonic. `NoMemory` (9) where memory runs out.
pub fn taken_text(
    alloc: Global,
    files: &Files,
    place: FileLine<&str>,
    text: &str,
) -> Result<String, NoMemory>
    ensures { IfOk result (λ shown. string_bytes shown ≡ meaning.taken_text files.now place.entry.file.now place.entry.line text.now) }
{
    let FileLine { file, line } = place;
    match macro_in(text) {
        Some(name) => {
            if is_mnemonic(name) {
                return Ok(String::new(alloc));
            }
            let begun = MacroLine { file, line, name };
            begun_text(alloc, files, &begun, text)
        }
        None => Ok(String::new(alloc)),
    }
}
