//! What is reported of whole files, and of the lines that copy files.

use crate::copies::{Copy, copies_in};
use crate::gathering::has_part;
use crate::notes::{Note, NoteKind};
use crate::old::OldFile;
use c25_meaning_common::no_memory::NoMemory;
use c25_move_lines::Style;
use std::alloc::Global;

/// Why the file that a line copies is not among these, if it is not.
fn remark(files: &[OldFile], copy: &Copy<'_>) -> Option<NoteKind> {
    if copy.is_elsewhere() {
        Some(NoteKind::InFolder)
    } else if has_part(files, copy.name) {
        None
    } else {
        Some(NoteKind::NotThere)
    }
}

/// Adds by which code page the bytes of a file were read, where they were.
fn push_code_page<'a>(notes: &mut Vec<Note<'a>>, old: &'a OldFile) -> Result<(), NoMemory> {
    if let Some(code_page) = old.code_page {
        notes.push(Note {
            file: old.name.as_str(),
            line: 1,
            kind: NoteKind::ByCodePage(code_page),
        })?;
    }
    Ok(())
}

/// Adds the lines of an old file in which names have another spelling than in the file.
fn push_spelled<'a>(notes: &mut Vec<Note<'a>>, old: &'a OldFile) -> Result<(), NoMemory> {
    let Some(read) = &old.unspelled else {
        return Ok(());
    };
    for (place, (was, is)) in read.lines().zip(old.text.lines()).enumerate() {
        if was != is {
            notes.push(Note {
                file: old.name.as_str(),
                line: place.saturating_add(1),
                kind: NoteKind::Spelling,
            })?;
        }
    }
    Ok(())
}

/// Adds what is reported of the lines of an old file that copy files.
fn push_copies<'a>(
    alloc: Global,
    notes: &mut Vec<Note<'a>>,
    style: Style,
    files: &[OldFile],
    old: &'a OldFile,
) -> Result<(), NoMemory> {
    let file = old.name.as_str();
    let copies = copies_in(alloc, style, old.text.as_str())?;
    for copy in copies.iter() {
        if let Some(kind) = remark(files, copy) {
            let line = copy.line;
            notes.push(Note { file, line, kind })?;
        }
    }
    Ok(())
}

/// What is reported of old files, and of their lines that copy files.
pub(crate) fn remarks_on<'a>(
    alloc: Global,
    style: Style,
    files: &'a [OldFile],
) -> Result<Vec<Note<'a>>, NoMemory> {
    let mut notes = Vec::new(alloc);
    for file in files {
        push_code_page(&mut notes, file)?;
        push_spelled(&mut notes, file)?;
        push_copies(alloc, &mut notes, style, files, file)?;
    }
    Ok(notes)
}
