//! The notes of faults of sources in front of which symbols may be defined.

ghost use Rattle.std.specs.Prelude.{◌≡◌, ◌==◌, IfOk, length, map, string_bytes};
ghost use Rattle.c25_explain.specs.Notes.{AreNotesFor};
ghost use Rattle.c25_explain.specs.declared.notes.Notes.TheVariants as notes;
ghost use Rattle.c25_fronts.specs.Fronts.{front_name};
ghost use Rattle.c25_inputs.specs.Files.{source_names};
ghost use Rattle.c25_options.specs.Task.{texts_of};
ghost use Rattle.c25_source_notes.specs.Notes.{AreSourceNotes, IsNoteOfFronts, IsNoteUnder, IsSourceNote};

use crate::lines::shown_text;
use crate::places::with_folders;
use c25_chain::fault::ChainFault;
use c25_disk::disk::Disk;
use c25_explain::named::NamedFiles;
use c25_explain::notes::{Notes, note_of, notes_for};
use c25_fronts::adding::front_names;
use c25_fronts::front::fronts_of;
use c25_fronts::fronted::Fronted;
use c25_inputs::sources::Sources;
use c25_meaning_common::no_memory::NoMemory;
use c25_options::task::{FaultOptions, RunFiles};
use std::alloc::Global;

/// Which notes are reported after the line of a fault, and of what sources.
#[derive(Clone, Copy)]
pub enum SourceNotes<'a> {
    /// Notes without regard to how sources are read.
    Plain(Notes<'a>),
    /// Notes of sources that are read so: with symbols in front of them, and with folders for the files that they copy.
    /// Of objects there are neither.
    Reading(Notes<'a>, Sources<'a>),
}

/// The notes that options ask for.
pub fn source_notes<'a>(
    options: FaultOptions,
    files: RunFiles<'a>,
    script: Option<&'a str>,
    sources: Sources<'a>,
    objects: &'a [&'a str],
) -> SourceNotes<'a>
    ensures { AreSourceNotes options files.entry script.entry (source_names sources.entry) (texts_of objects.entry.now) result }
{
    let notes = notes_for(options, files, script, sources.names, objects);
    SourceNotes::Reading(notes, sources)
}

/// Texts, borrowed.
fn borrowed(alloc: Global, texts: &[String]) -> Result<Vec<&str>, NoMemory>
    ensures { IfOk result (λ names. texts_of names.items ≡ map string_bytes texts.now) }
{
    let mut names = Vec::new(alloc);
    for text in texts {
        names.push(text.as_str())?;
    }
    Ok(names)
}

/// The note of a fault of sources in front of which symbols are defined.
fn note_of_fronts<D: Disk>(
    alloc: Global,
    disk: &D,
    refusal: &ChainFault<String>,
    notes: Notes<'_>,
    definitions: &[&str],
) -> Result<String, NoMemory>
    ensures { IfOk result (λ note. IsNoteOfFronts (D.refuses disk.now) (D.bytes_of disk.now) notes.entry (texts_of definitions.now) refusal.now (string_bytes note)) }
{
    let Notes::After(options, named) = notes else {
        return Ok(String::new(alloc));
    };
    let fronts = fronts_of(alloc, definitions, named.sources)?;
    let made = front_names(alloc, named.sources)?;
    let names = borrowed(alloc, made.as_slice())?;
    let NamedFiles {
        files,
        script,
        objects,
        ..
    } = named;
    let shown = notes_for(options, files, script, names.as_slice(), objects);
    let fronted = Fronted {
        disk,
        fronts: fronts.as_slice(),
    };
    let note = note_of(alloc, &fronted, refusal, shown);
    shown_text(alloc, note.as_str(), named.sources)
}

/// The note of a fault of sources in front of which symbols may be defined; empty where none is asked for, or memory
/// runs out.
fn note_under<D: Disk>(
    alloc: Global,
    disk: &D,
    refusal: &ChainFault<String>,
    notes: Notes<'_>,
    definitions: &[&str],
) -> String
    ensures { IsNoteUnder (length (texts_of definitions.now) == 0) (D.refuses disk.now) (D.bytes_of disk.now) notes.entry (texts_of definitions.now) refusal.now (string_bytes result) }
{
    if definitions.is_empty() {
        return note_of(alloc, disk, refusal, notes);
    }
    match note_of_fronts(alloc, disk, refusal, notes, definitions) {
        Ok(note) => note,
        Err(_) => String::new(alloc),
    }
}

/// The note of a fault; empty where none is asked for, or memory runs out. Where symbols are defined in front of the
/// sources, the fault is one of their fronts; where copied files are looked for in folders, the note says where.
pub fn note_of_sources<D: Disk>(
    alloc: Global,
    disk: &D,
    refusal: &ChainFault<String>,
    notes: SourceNotes<'_>,
) -> String
    ensures { IsSourceNote (D.refuses disk.now) (D.bytes_of disk.now) notes.entry refusal.now (string_bytes result) }
{
    match notes {
        SourceNotes::Plain(notes) => note_of(alloc, disk, refusal, notes),
        SourceNotes::Reading(notes, sources) => {
            let note = note_under(alloc, disk, refusal, notes, sources.definitions);
            with_folders(alloc, disk, refusal, (notes, sources.folders), note)
        }
    }
}
