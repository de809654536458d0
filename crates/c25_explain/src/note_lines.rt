//! Notes about modules, each after a line of a file where one is known.

ghost use Rattle.std.specs.Option.{option_map};
ghost use Rattle.std.specs.Prelude.{◌≡◌, ◌∷◌, [], IfOk, map, string_bytes};
ghost use Rattle.c25_link.specs.Misfits.{line_of};
ghost use Rattle.c25_explain.specs.Again.{IsLineText, ShowsNote, ShowsNotes, line_text, line_view, name_at, note_view, notes_view};

use crate::note::line_of;
use c25_disk::disk::Disk;
use c25_disk::read_file;
use c25_meaning_common::no_memory::NoMemory;
use c25_meaning_common::placed::FileLine;
use std::alloc::Global;

/// A text about modules, and the line of a file that is shown before it.
#[derive(Drop)]
pub(crate) struct LinkNote {
    pub text: String,
    pub line: Option<FileLine<String>>,
}

/// A list of one note alone.
pub(crate) fn alone(alloc: Global, note: LinkNote) -> Result<Vec<LinkNote>, NoMemory>
    ensures { IfOk result (λ notes. notes_view notes.items ≡ note_view note ∷ []) }
{
    let mut notes = Vec::new(alloc);
    notes.push(note)?;
    Ok(notes)
}

/// A copy of the place of a source line, with a copy of the file's name.
pub(crate) fn owned_line(
    alloc: Global,
    line: Option<FileLine<&str>>,
) -> Result<Option<FileLine<String>>, NoMemory>
    ensures { IfOk result (λ owned. line_view owned ≡ option_map line_of line.entry) }
{
    match line {
        Some(line) => Ok(Some(FileLine {
            file: String::from_str(alloc, line.file)?,
            line: line.line,
        })),
        None => Ok(None),
    }
}

/// The name of the file of the module of this number, counted from 0; empty where there is no such module.
pub(crate) fn name_at(names: &[String], number: usize) -> &str
    ensures { result.now ≡ name_at (map string_bytes names.now) number }
{
    match names.get(number) {
        Some(name) => name,
        None => "",
    }
}

/// A line of a file's text with its file and number; empty where there is no such line.
pub(crate) fn line_text(
    alloc: Global,
    file: &str,
    number: usize,
    text: &str,
) -> Result<String, NoMemory>
    ensures { IfOk result (λ shown. string_bytes shown ≡ line_text file.now number text.now) }
{
    match line_of(text, number) {
        Some(row) => Ok(format!(in alloc; "{file}:{number}: {row}\n")?),
        None => Ok(String::new(alloc)),
    }
}

/// A line of a file, read again; empty where the file cannot be read or has no such line.
fn line_shown<D: Disk>(
    alloc: Global,
    disk: &D,
    line: &Option<FileLine<String>>,
) -> Result<String, NoMemory>
    ensures { IfOk result (λ shown. IsLineText (D.bytes_of disk.now) (line_view line.now) (string_bytes shown)) }
{
    let Some(line) = line else {
        return Ok(String::new(alloc));
    };
    match read_file(alloc, disk, line.file.as_str()) {
        Ok(text) => line_text(alloc, line.file.as_str(), line.line, text.as_str()),
        Err(_) => Ok(String::new(alloc)),
    }
}

/// The line of a note, and the note's text after it.
fn note_shown<D: Disk>(alloc: Global, disk: &D, note: &LinkNote) -> Result<String, NoMemory>
    ensures { IfOk result (λ shown. ShowsNote (D.bytes_of disk.now) (note_view note.now) (string_bytes shown)) }
{
    let mut shown = line_shown(alloc, disk, &note.line)?;
    shown.push_str(note.text.as_str())?;
    Ok(shown)
}

/// Notes one after the other, each after its line.
#[tactic(auto, using(crate::proofs::NotesShown::shown_next, crate::proofs::NotesShown::shown_all))]
pub(crate) fn notes_shown<D: Disk>(
    alloc: Global,
    disk: &D,
    notes: &[LinkNote],
) -> Result<String, NoMemory>
    ensures { IfOk result (λ shown. ShowsNotes (D.bytes_of disk.now) (notes_view notes.now) (string_bytes shown)) }
{
    let mut text = String::new(alloc);
    for note in notes {
        let shown = note_shown(alloc, disk, note)?;
        text.push_str(shown.as_str())?;
    }
    Ok(text)
}
