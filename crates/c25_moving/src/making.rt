//! New files of old ones, with the command file and the report.

ghost use Rattle.std.specs.Prelude.{◌≡◌, ◌++◌, ◌||◌, IfOk, List, map, not, string_bytes};
ghost use Rattle.c25_move_files.specs.Files.{moved_of, notes_of_files};
ghost use Rattle.c25_move_files.specs.Notes.{Noted, are_left, noted};
ghost use Rattle.c25_moving.specs.Making.{ComparesMade, IsMadeFrom, IsMadeOf};

use crate::bss_command::with_bss_placed;
use crate::bss_given::given_by;
use crate::compared::{Comparison, compare};
use crate::holes::hole_notes;
use crate::made::Made;
use crate::old_words::OldWords;
use c25_meaning_common::no_memory::NoMemory;
use c25_move_files::all::{MovedFiles, moved};
use c25_move_files::gathered::Gathered;
use c25_move_files::holed::with_holes;
use c25_move_files::new::{NewFile, new_files};
use c25_move_files::notes::Note;
use c25_move_files::report::{notes_on, report_of};
use c25_move_files::rows::are_left;
use c25_move_files::texts::{names_of, texts_of};
use std::alloc::Global;

/// New files with a command file, the first so many of which are sources.
#[derive(Clone, Copy)]
struct NewProgram<'a> {
    files: &'a [NewFile],
    sources: usize,
    command: &'a str,
}

/// The program of new files, compared with an old one, if there is one.
fn comparison(
    alloc: Global,
    program: NewProgram<'_>,
    old: Option<OldWords<'_>>,
) -> Result<Comparison, NoMemory>
    ensures { IfOk result (ComparesMade program.entry.files.now program.entry.sources program.entry.command.now old.entry) }
{
    match old {
        None => Ok(Comparison {
            text: String::new(alloc),
            is_same: true,
        }),
        Some(old) => {
            let texts = texts_of(alloc, program.files)?;
            let mut names = names_of(alloc, program.files)?;
            names.truncate(program.sources);
            compare(alloc, old, &texts, names.as_slice(), program.command)
        }
    }
}

/// What the report has besides the notes of lines.
#[derive(Clone, Copy)]
pub struct Reporting<'a> {
    /// Whether only that is reported on which something is left to do.
    pub quiet: bool,
    /// The old program, if it is compared.
    pub old: Option<OldWords<'a>>,
}

/// Whether something is left to do: a note says so, or the programs differ.
fn is_left(notes: &[Note<'_>], is_same: bool) -> bool
    ensures { result ≡ (are_left (map noted notes.now) || not is_same) }
{
    are_left(notes) || !is_same
}

/// What is made of old files that are moved, of which these notes are reported.
fn made_with(
    alloc: Global,
    gathered: &Gathered,
    moved: &MovedFiles<'_>,
    notes: &[Note<'_>],
    reporting: Reporting<'_>,
) -> Result<Made, NoMemory>
    ensures { IfOk result (IsMadeOf gathered.now.sources (string_bytes gathered.now.heading) (map moved_of moved.now.files.items) (map noted notes.now) reporting.entry) }
{
    let files = new_files(alloc, moved.files.as_slice())?;
    let program = NewProgram {
        files: files.as_slice(),
        sources: gathered.sources,
        command: moved.command.text.as_str(),
    };
    let comparison = comparison(alloc, program, reporting.old)?;
    let heading = gathered.heading.as_str();
    let report = report_of(
        alloc,
        heading,
        reporting.quiet,
        notes,
        comparison.text.as_str(),
    )?;
    let command = String::from_str(alloc, moved.command.text.as_str())?;
    let is_left = is_left(notes, comparison.is_same);
    Ok(Made {
        files,
        sources: gathered.sources,
        command,
        report,
        is_left,
    })
}

/// What is reported of old files that are moved: of their lines, of whole files, and of the holes of `.bss`.
fn notes_with<'a>(
    alloc: Global,
    gathered: &'a Gathered,
    moved: &'a MovedFiles<'_>,
    holes: &[Note<'a>],
) -> Result<Vec<Note<'a>>, NoMemory>
    ensures { IfOk result (λ notes. (remarks : List Noted) × (map noted notes.items ≡ (notes_of_files (map moved_of moved.entry.now.files.items) ++ remarks) ++ map noted holes.now)) }
{
    let mut notes = notes_on(alloc, gathered, moved)?;
    notes.append(&mut Vec::from_slice(alloc, holes)?)?;
    Ok(notes)
}

/// What is made of old files that are moved, with the holes that these notes are on.
fn made_holed(
    alloc: Global,
    gathered: &Gathered,
    moved: &MovedFiles<'_>,
    holes: &[Note<'_>],
    reporting: Reporting<'_>,
) -> Result<Made, NoMemory>
    ensures { IfOk result (λ made. (remarks : List Noted) × IsMadeOf gathered.now.sources (string_bytes gathered.now.heading) (map moved_of moved.now.files.items) ((notes_of_files (map moved_of moved.now.files.items) ++ remarks) ++ map noted holes.now) reporting.entry made) }
{
    let notes = notes_with(alloc, gathered, moved, holes)?;
    made_with(alloc, gathered, moved, notes.as_slice(), reporting)
}

/// What is made of old files: the new ones in a folder, the command file and the report.
pub(crate) fn made(
    alloc: Global,
    gathered: &Gathered,
    folder: &str,
    reporting: Reporting<'_>,
) -> Result<Made, NoMemory>
    ensures { IfOk result (IsMadeFrom gathered.now folder.now reporting.entry) }
{
    let moved = moved(alloc, gathered, folder)?;
    let given = given_by(alloc, moved.command.text.as_str())?;
    let holes = hole_notes(alloc, gathered, moved.files.as_slice(), given)?;
    let holed = with_holes(alloc, moved, holes.as_slice())?;
    let placed = with_bss_placed(alloc, gathered, holed)?;
    made_holed(alloc, gathered, &placed, holes.as_slice(), reporting)
}
