//! The task `build`: the files of a program of sources, with its symbols and its EPROMs where they are asked for.

ghost use Rattle.std.specs.Prelude.{◌∷◌, ◌++◌, [], map, string_bytes};
ghost use Rattle.c25_disk.specs.Held.{Held};
ghost use Rattle.c25_inputs.specs.Files.{source_names};
ghost use Rattle.c25_options.specs.Task.{text_of, texts_of};
ghost use Rattle.c25_rom.specs.View as rom;
ghost use Rattle.c25_tasks.specs.BuildToDisk.{BuildsOrReports, BuildsProgram, BuildsWith, DoesBuild, WritesAndPrints, WritesProgram};
ghost use Rattle.c25_tasks.specs.Building.{program_files};
ghost use Rattle.c25_tasks.specs.Reading.{read_by, sources_under};
ghost use Rattle.c25_tasks.specs.Tells.{is_done};

use crate::building::built;
use crate::report::{answer_or_report, is_done, notes_under};
use crate::roms::{RomAsked, report_past, rom_asked};
use crate::running::is_explained;
use crate::symbols::{BuiltWithSymbols, built_with_symbols};
use crate::texts::{Program, ProgramFiles, texts_of};
use crate::writing::{write_program, write_texts};
use c25_chain::fault::Fault;
use c25_disk::Output;
use c25_disk::disk::Disk;
use c25_fronts::folders::InFolders;
use c25_inputs::sources::Sources;
use c25_meaning_common::failure::Failure;
use c25_options::task::BuildTask;
use c25_report::ending::{Ending, Report};
use c25_report::printing::print_answers;
use c25_rom::made::{MadeRom, make_rom};
use c25_source_notes::notes::SourceNotes;
use std::alloc::Global;
use std::io::Write;

/// Sources to build under a command file, where one is named, and the file of the symbols, where one is named.
#[derive(Clone, Copy)]
struct ProgramAsked<'a> {
    sources: Sources<'a>,
    command: Option<&'a str>,
    symbols: Option<&'a str>,
}

/// The program of sources, with the file of its symbols, where one is named.
fn program_of<'a, D: Disk>(
    alloc: Global,
    disk: &D,
    asked: ProgramAsked<'a>,
) -> Result<Program<'a>, Fault>
    ensures { BuildsProgram (D.bytes_of disk.now) (source_names asked.entry.sources) (text_of asked.entry.command) (text_of asked.entry.symbols) result }
{
    let ProgramAsked {
        sources,
        command,
        symbols,
    } = asked;
    match symbols {
        None => match built(alloc, disk, sources, command) {
            Ok(built) => Ok(Program {
                built,
                symbols: None,
            }),
            Err(fault) => Err(fault),
        },
        Some(name) => match built_with_symbols(alloc, disk, sources, command) {
            Ok(BuiltWithSymbols { built, symbols }) => {
                let bytes = symbols.into_bytes();
                Ok(Program {
                    built,
                    symbols: Some(Output { name, bytes }),
                })
            }
            Err(fault) => Err(fault),
        },
    }
}

/// The program of a task, or the report of why there is none.
fn program_or_report<'a, D: Disk>(
    alloc: Global,
    disk: &D,
    task: &'a BuildTask<'a>,
    notes: SourceNotes<'_>,
) -> Result<Program<'a>, Report>
    ensures { BuildsOrReports (read_by (texts_of task.now.sources.items) (text_of task.now.command ∷ []) task.now.reading (D.opens disk.now) (D.bytes_of disk.now)) notes.entry (sources_under task.now.sources.items task.now.reading) (text_of task.now.command) (text_of task.now.symbols) result }
{
    let sources = Sources {
        names: &task.sources,
        definitions: &task.reading.definitions,
        folders: &task.reading.folders,
    };
    let asked = ProgramAsked {
        sources,
        command: task.command,
        symbols: task.symbols,
    };
    let beside = [task.command];
    let disk = InFolders {
        disk,
        folders: sources.folders,
        sources: sources.names,
        beside: &beside,
    };
    let answer = program_of(alloc, &disk, asked);
    answer_or_report(alloc, &disk, answer, notes)
}

/// How the files of a program are written, and what is reported of a fault.
#[derive(Clone, Copy)]
struct Writing<'a> {
    /// What the names of the files begin with, but for that of the symbols.
    base: &'a str,
    /// The EPROMs, where they are asked for.
    rom: Option<RomAsked>,
    notes: SourceNotes<'a>,
}

/// A program with its EPROMs.
#[derive(Drop)]
struct ProgramWithRom<'a> {
    program: Program<'a>,
    rom: MadeRom,
}

/// Writes the files of a program and those of its EPROMs, and then prints the lines of these.
fn write_with_rom<D: Disk, O: Write>(
    alloc: Global,
    made: ProgramWithRom<'_>,
    writing: Writing<'_>,
    disk: &mut D,
    out: &mut O,
) -> Report
    ensures { (held : Held) → WritesAndPrints held writing.entry.notes (program_files writing.entry.base.now made.entry.program ++ map rom.contents_of made.entry.rom.files.items) (string_bytes made.entry.rom.lines) result.ending (string_bytes result.note) (D.written disk.old, D.written disk.new) (O.contents out.old, O.contents out.new) }
{
    let ProgramWithRom { program, rom } = made;
    let Program { built, symbols } = program;
    let files = ProgramFiles {
        base: writing.base,
        texts: texts_of(built),
        symbols,
        roms: rom.files.as_slice(),
    };
    let report = write_texts(alloc, files, writing.notes, disk);
    if is_done(&report.ending) {
        return Report::without_note(alloc, print_answers(rom.lines.as_str(), out));
    }
    report
}

/// Writes the files of a program, and those of its EPROMs where they are asked for. A word that has no place in these is
/// reported (79), and nothing is written.
fn write_asked<D: Disk, O: Write>(
    alloc: Global,
    program: Program<'_>,
    writing: Writing<'_>,
    disk: &mut D,
    out: &mut O,
) -> Report
    ensures { (held : Held) → WritesProgram held writing.entry.notes writing.entry.base.now writing.entry.rom program.entry result.ending (string_bytes result.note) (D.written disk.old, D.written disk.new) (O.contents out.old, O.contents out.new) }
{
    match writing.rom {
        None => write_program(alloc, writing.base, program, writing.notes, disk),
        Some(asked) => {
            let words = program.built.linked.image.words(0);
            match make_rom(alloc, writing.base, asked.shape, words, asked.fill) {
                Ok(rom) => {
                    write_with_rom(alloc, ProgramWithRom { program, rom }, writing, disk, out)
                }
                Err(Failure::NoMemory(error)) => {
                    Report::without_note(alloc, Ending::NoMemory(error))
                }
                Err(Failure::Fault(past)) => {
                    report_past(alloc, &past, is_explained(writing.notes))
                }
            }
        }
    }
}

/// Builds the sources of a task, and writes the files of their program, and those of its EPROMs where they are asked for.
fn build_with<D: Disk, O: Write>(
    alloc: Global,
    task: &BuildTask<'_>,
    rom: Option<RomAsked>,
    disk: &mut D,
    out: &mut O,
) -> Report
    ensures { BuildsWith (D.bytes_of disk.old) (D.opens disk.old) task.now rom result.ending (string_bytes result.note) (D.written disk.old, D.written disk.new) (O.contents out.old, O.contents out.new) }
{
    let sources = Sources {
        names: &task.sources,
        definitions: &task.reading.definitions,
        folders: &task.reading.folders,
    };
    let notes = notes_under(task.faults, task.command, sources, &[]);
    match program_or_report(alloc, disk, task, notes) {
        Ok(program) => {
            let writing = Writing {
                base: task.base,
                rom,
                notes,
            };
            write_asked(alloc, program, writing, disk, out)
        }
        Err(report) => report,
    }
}

/// Builds the sources of a task, and writes the files of their program, with its symbols and its EPROMs where they are
/// asked for, and prints the lines of the EPROMs. Where something is wrong with what is asked for, nothing is read.
pub(crate) fn build<D: Disk, O: Write>(
    alloc: Global,
    task: &BuildTask<'_>,
    disk: &mut D,
    out: &mut O,
) -> Report
    ensures { DoesBuild (D.bytes_of disk.old) (D.opens disk.old) task.now result.ending (string_bytes result.note) (D.written disk.old, D.written disk.new) (O.contents out.old, O.contents out.new) }
{
    match rom_asked(alloc, task.rom) {
        Ok(rom) => build_with(alloc, task, rom, disk, out),
        Err(ending) => Report::without_note(alloc, ending),
    }
}
