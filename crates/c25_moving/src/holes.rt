//! The holes between blocks of `.bss`. TI's assembler leaves them, so that no block crosses a page of data memory; here the
//! words of `.bss` follow one another, so lines that reserve the words of holes are put in.

use crate::block_lines::{OldPlace, has_block, is_in_texts, last_line, line_of_name};
use crate::blocks::{Reserved, reserved_by};
use crate::bss_given::Given;
use crate::paging::{filler, fit, fit_with_holes, holes, moved_on};
use c25_macro::files::Files;
use c25_meaning_common::no_memory::NoMemory;
use c25_move_files::gathered::Gathered;
use c25_move_files::holed::files_with_holes;
use c25_move_files::moved::MovedFile;
use c25_move_files::new::{NewFile, new_files};
use c25_move_files::notes::{Hole, HoleSide, Note, NoteKind};
use c25_move_files::texts::texts_of;
use std::alloc::Global;

/// What each of the first so many new files reserves in `.bss`, if all of these are assembled without a fault.
fn parts_of(
    alloc: Global,
    texts: &Files,
    files: &[NewFile],
    sources: usize,
) -> Result<Option<Vec<Reserved>>, NoMemory> {
    let mut parts = Vec::new(alloc);
    for (number, file) in files.iter().enumerate() {
        if number < sources {
            match reserved_by(alloc, texts, file.name.as_str())? {
                Some(part) => parts.push(part)?,
                None => return Ok(None),
            }
        }
    }
    Ok(Some(parts))
}

/// The first number from this one on for which no old file has a name of a hole.
fn free_number(alloc: Global, gathered: &Gathered, from: usize) -> Result<usize, NoMemory> {
    let mut number = from;
    for _ in 0..1_000_usize {
        let name = format!(in alloc; "{}{number}", "HOLE")?;
        if !is_in_texts(gathered, name.as_str()) {
            return Ok(number);
        }
        number = number.saturating_add(1);
    }
    Ok(number)
}

/// A hole, and the line of an old file around which it goes.
#[derive(Clone, Copy)]
struct HoleAt<'a> {
    place: OldPlace<'a>,
    hole: Hole,
}

/// The holes so far, and the number of the last one.
#[derive(Drop)]
struct Holes<'a> {
    found: Vec<HoleAt<'a>>,
    number: usize,
}

impl<'a> Holes<'a> {
    /// Adds a hole on a side of a line, with the next free number.
    fn push(
        &mut self,
        alloc: Global,
        gathered: &Gathered,
        (place, side): (OldPlace<'a>, HoleSide),
        words: u32,
    ) -> Result<(), NoMemory> {
        let number = free_number(alloc, gathered, self.number.saturating_add(1))?;
        self.number = number;
        let hole = Hole {
            side,
            number,
            words,
        };
        self.found.push(HoleAt { place, hole })?;
        Ok(())
    }

    /// Adds the holes before the blocks of a source, and returns how many words they have together, counted within a
    /// page.
    fn push_before(
        &mut self,
        alloc: Global,
        gathered: &'a Gathered,
        source: usize,
        part: &Reserved,
    ) -> Result<u32, NoMemory> {
        let holes = holes(alloc, part.blocks.as_slice())?;
        let mut filled = 0_u32;
        for (hole, name) in holes.iter().zip(part.names.iter()) {
            if *hole > 0 {
                let place = line_of_name(gathered, source, name.as_str());
                let words = *hole;
                self.push(alloc, gathered, (place, HoleSide::Before), words)?;
                filled = moved_on(words, filled);
            }
        }
        Ok(filled)
    }

    /// Adds the holes of a source: those before its blocks, and one after its words, which fills its part up to whole
    /// pages, where a later source has blocks.
    fn push_part(
        &mut self,
        alloc: Global,
        gathered: &'a Gathered,
        parts: &[Reserved],
        source: usize,
    ) -> Result<(), NoMemory> {
        if source >= parts.len() {
            return Ok(());
        }
        let part = &parts[source];
        let filled = self.push_before(alloc, gathered, source, part)?;
        let words = filler(part.words, filled);
        if words > 0 && has_later_blocks(parts, source) {
            let place = last_line(gathered, source);
            self.push(alloc, gathered, (place, HoleSide::After), words)?;
        }
        Ok(())
    }
}

/// Whether a part after this one has blocks.
fn has_later_blocks(parts: &[Reserved], source: usize) -> bool {
    for (number, part) in parts.iter().enumerate() {
        if number > source && !part.blocks.is_empty() {
            return true;
        }
    }
    false
}

/// The holes of sources that reserve these parts; none where all blocks fit without holes.
fn holes_of_parts<'a>(
    alloc: Global,
    gathered: &'a Gathered,
    parts: &[Reserved],
    given: Option<Given>,
) -> Result<Vec<HoleAt<'a>>, NoMemory> {
    let mut holes = Holes {
        found: Vec::new(alloc),
        number: 0,
    };
    if !fit(given, parts) {
        for source in 0..parts.len() {
            holes.push_part(alloc, gathered, parts, source)?;
        }
    }
    let Holes { found, .. } = holes;
    Ok(found)
}

/// What the sources among files that are moved reserve in `.bss`, if all of them are assembled without a fault.
pub(crate) fn reserved_in(
    alloc: Global,
    gathered: &Gathered,
    files: &[MovedFile<'_>],
) -> Result<Option<Vec<Reserved>>, NoMemory> {
    let files = new_files(alloc, files)?;
    let texts = texts_of(alloc, files.as_slice())?;
    parts_of(alloc, &texts, files.as_slice(), gathered.sources)
}

/// The holes of sources that are moved; none where a new source has a fault, since what it reserves is not known then.
fn holes_of<'a>(
    alloc: Global,
    gathered: &'a Gathered,
    files: &[MovedFile<'_>],
    given: Option<Given>,
) -> Result<Vec<HoleAt<'a>>, NoMemory> {
    if !has_block(gathered) {
        return Ok(Vec::new(alloc));
    }
    match reserved_in(alloc, gathered, files)? {
        Some(parts) => holes_of_parts(alloc, gathered, parts.as_slice(), given),
        None => Ok(Vec::new(alloc)),
    }
}

/// The notes of holes that were put in.
fn notes_put_in<'a>(alloc: Global, holes: &[HoleAt<'a>]) -> Result<Vec<Note<'a>>, NoMemory> {
    let mut notes = Vec::new(alloc);
    for HoleAt { place, hole } in holes {
        notes.push(note_at(*place, NoteKind::HolePutIn(*hole)))?;
    }
    Ok(notes)
}

/// The notes of holes that the reader is to put in.
fn notes_left<'a>(alloc: Global, holes: &[HoleAt<'a>]) -> Result<Vec<Note<'a>>, NoMemory> {
    let mut notes = Vec::new(alloc);
    for HoleAt { place, hole } in holes {
        notes.push(note_at(*place, NoteKind::HoleLeft(*hole)))?;
    }
    Ok(notes)
}

/// A note of a line.
fn note_at<'a>(place: OldPlace<'a>, kind: NoteKind) -> Note<'a> {
    let OldPlace { file, line } = place;
    Note { file, line, kind }
}

/// Whether all blocks lie in pages where these notes put holes into files that are moved.
fn all_fit_with(
    alloc: Global,
    gathered: &Gathered,
    files: &[MovedFile<'_>],
    notes: &[Note<'_>],
    given: Option<Given>,
) -> Result<bool, NoMemory> {
    let files = files_with_holes(alloc, files, notes)?;
    match reserved_in(alloc, gathered, files.as_slice())? {
        Some(parts) => Ok(fit_with_holes(given, parts.as_slice())),
        None => Ok(false),
    }
}

/// The notes of the holes of sources that are moved, where the command file gives `.bss` this address: as put in where all
/// blocks lie in pages with them, and else as left to the reader, as where a macro's expansion or two sources that copy one
/// file have the blocks.
pub(crate) fn hole_notes<'a>(
    alloc: Global,
    gathered: &'a Gathered,
    files: &[MovedFile<'_>],
    given: Option<Given>,
) -> Result<Vec<Note<'a>>, NoMemory> {
    let holes = holes_of(alloc, gathered, files, given)?;
    let notes = notes_put_in(alloc, holes.as_slice())?;
    if notes.is_empty() || all_fit_with(alloc, gathered, files, notes.as_slice(), given)? {
        Ok(notes)
    } else {
        notes_left(alloc, holes.as_slice())
    }
}
