//! The report of sources that are moved.

ghost use Rattle.std.specs.Prelude.{◌≡◌, ◌++◌, IfOk, OnOk, map, string_bytes};
ghost use Rattle.c25_move_files.specs.Files.{IsReportedOf, moved_of, notes_of_files};
ghost use Rattle.c25_move_files.specs.Notes.{noted, rows};

use crate::all::MovedFiles;
use crate::gathered::Gathered;
use crate::moved::MovedFile;
use crate::notes::{Note, push_files};
use crate::remarks::remarks_on;
use crate::rows::push_rows;
use c25_meaning_common::no_memory::NoMemory;
use std::alloc::Global;

/// Adds notes.
fn push_notes<'a>(notes: &mut Vec<Note<'a>>, others: &[Note<'a>]) -> Result<(), NoMemory>
    ensures { OnOk result (map noted notes.new.items ≡ map noted notes.old.items ++ map noted others.now) }
{
    for note in others {
        notes.push(*note)?;
    }
    Ok(())
}

/// What is reported of files that are moved, and these remarks after it.
fn notes_with<'a>(
    alloc: Global,
    moved: &'a [MovedFile<'_>],
    remarks: &[Note<'a>],
) -> Result<Vec<Note<'a>>, NoMemory>
    ensures { IfOk result (λ notes. map noted notes.items ≡ notes_of_files (map moved_of moved.entry.now) ++ map noted remarks.now) }
{
    let mut notes = Vec::new(alloc);
    push_files(&mut notes, moved)?;
    push_notes(&mut notes, remarks)?;
    Ok(notes)
}

/// What is reported of old files that are moved: of their lines, then of whole files and of lines that copy files, and of
/// the old command file.
pub fn notes_on<'a>(
    alloc: Global,
    gathered: &'a Gathered,
    moved: &'a MovedFiles<'_>,
) -> Result<Vec<Note<'a>>, NoMemory>
    ensures { IfOk result (λ notes. IsReportedOf (map moved_of moved.entry.now.files.items) (map noted notes.items)) }
{
    let mut remarks = remarks_on(alloc, gathered.style, gathered.files.as_slice())?;
    push_notes(&mut remarks, moved.command.notes.as_slice())?;
    let notes = notes_with(alloc, moved.files.as_slice(), remarks.as_slice())?;
    Ok(notes)
}

/// The text of a report: a heading, the lines of notes, and the comparison.
pub fn report_of(
    alloc: Global,
    heading: &str,
    quiet: bool,
    notes: &[Note<'_>],
    comparison: &str,
) -> Result<String, NoMemory>
    ensures { IfOk result (λ text. string_bytes text ≡ (heading.now ++ rows quiet (map noted notes.now)) ++ comparison.now) }
{
    let mut text = String::from_str(alloc, heading)?;
    push_rows(alloc, &mut text, quiet, notes)?;
    text.push_str(comparison)?;
    Ok(text)
}
