//! Writing of files, and the report of it.

ghost use Rattle.std.specs.Prelude.{◌≡◌, ◌++◌, map, string_bytes};
ghost use Rattle.c25_disk.specs.Held.{Held};
ghost use Rattle.c25_disk.specs.Written.{contents_of};
ghost use Rattle.c25_report.specs.ProgramFiles.{files_of};
ghost use Rattle.c25_rom.specs.View as rom;
ghost use Rattle.c25_tasks.specs.Building.{and_file, program_files};
ghost use Rattle.c25_tasks.specs.Tells.{Writes, WritesTexts};

use crate::report::report_of_fault;
use crate::texts::{Program, ProgramFiles, outputs_of, texts_of};
use c25_disk::disk::Disk;
use c25_disk::{Output, write_outputs};
use c25_inputs::files::fault_of_file;
use c25_report::ending::{Ending, Report};
use c25_report::texts::file_names;
use c25_source_notes::notes::SourceNotes;
use std::alloc::Global;

/// Writes files, and answers the report, which is the same whatever the disk holds.
pub(crate) fn write_files<D: Disk>(
    alloc: Global,
    outputs: &[Output<'_>],
    notes: SourceNotes<'_>,
    disk: &mut D,
) -> Report
    ensures { (held : Held) → Writes held notes.entry (map contents_of outputs.now) result.ending (string_bytes result.note) (D.written disk.old, D.written disk.new) }
{
    match write_outputs(alloc, disk, outputs) {
        Ok(()) => Report::without_note(alloc, Ending::Done),
        Err(failure) => report_of_fault(alloc, disk, fault_of_file(failure), notes),
    }
}

/// Writes the files of a program, and after them that of its symbols, if there is one, and those of its EPROMs.
#[tactic(auto, using(crate::proofs::Quiet::stays))]
pub(crate) fn write_texts<D: Disk>(
    alloc: Global,
    files: ProgramFiles<'_>,
    notes: SourceNotes<'_>,
    disk: &mut D,
) -> Report
    ensures { (held : Held) → WritesTexts held notes.entry (and_file (files_of files.entry.base.now files.entry.texts) files.entry.symbols ++ map rom.contents_of files.entry.roms.now) result.ending (string_bytes result.note) (D.written disk.old, D.written disk.new) }
{
    let names = match file_names(alloc, files.base, files.texts.listings.len()) {
        Ok(names) => names,
        Err(error) => return Report::without_note(alloc, Ending::NoMemory(error)),
    };
    match outputs_of(alloc, &names, files) {
        Ok(outputs) => write_files(alloc, outputs.as_slice(), notes, disk),
        Err(error) => Report::without_note(alloc, Ending::NoMemory(error)),
    }
}

/// Writes the files of a program, and after them that of its symbols, if there is one.
pub(crate) fn write_program<D: Disk>(
    alloc: Global,
    base: &str,
    program: Program<'_>,
    notes: SourceNotes<'_>,
    disk: &mut D,
) -> Report
    ensures { (held : Held) → WritesTexts held notes.entry (program_files base.now program.entry) result.ending (string_bytes result.note) (D.written disk.old, D.written disk.new) }
{
    let Program { built, symbols } = program;
    let files = ProgramFiles {
        base,
        texts: texts_of(built),
        symbols,
        roms: &[],
    };
    write_texts(alloc, files, notes, disk)
}
