//! The tasks `run` and `debug` of an image: those of the source and the command file that are made of it, which stand on no
//! disk.

ghost use Rattle.std.specs.Prelude.{◌≡◌, ◌∷◌, [], IfOk, map, string_bytes};
ghost use Rattle.c25_fronts.specs.Fronts.{entry_of, fronted, with_fronts};
ghost use Rattle.c25_options.specs.Task.{texts_of};
ghost use Rattle.c25_tasks.specs.Counting.{DoesRun};
ghost use Rattle.c25_tasks.specs.ImageRuns.{AreFilesOf, DebugsTexts, DoesDebugImage, DoesRunImage, IsDebugOf, IsPlainReading, IsRunOf, RunsTexts};

use crate::counting::{run_task, write_counts};
use crate::debugging::debug;
use crate::image_texts::{ImageTexts, image_texts};
use c25_disk::disk::Disk;
use c25_fronts::front::Front;
use c25_fronts::fronted::Fronted;
use c25_inputs::sources::Sources;
use c25_meaning_common::no_memory::NoMemory;
use c25_options::task::{
    DebugImageTask, DebugTask, ImageRun, RunFiles, RunImageTask, RunTask, SourceOptions,
};
use c25_report::ending::{Ending, Report};
use c25_source_notes::notes::source_notes;
use std::alloc::Global;
use std::io::{Read, Write};

/// The task `debug` of an image, and the texts of the image.
#[derive(Clone, Copy)]
struct Debugged<'a> {
    task: DebugImageTask<'a>,
    texts: &'a ImageTexts,
}

/// No symbols, and no folders.
fn plain_reading<'a>(alloc: Global) -> SourceOptions<'a>
    ensures { IsPlainReading result }
{
    SourceOptions {
        definitions: Vec::new(alloc),
        folders: Vec::new(alloc),
    }
}

/// The files of a run of the texts of an image.
fn files_of<'a>(image: ImageRun<'a>, texts: &'a ImageTexts) -> RunFiles<'a>
    ensures { AreFilesOf image.entry texts.entry.now result }
{
    RunFiles {
        command: Some(texts.names.command.as_str()),
        samples: image.samples,
        schedule: image.schedule,
    }
}

/// The name of the source of an image, as the only one.
fn names_of<'a>(alloc: Global, texts: &'a ImageTexts) -> Result<Vec<&'a str>, NoMemory>
    ensures { IfOk result (λ names. texts_of names.items ≡ string_bytes texts.entry.now.names.source ∷ []) }
{
    let mut names = Vec::new(alloc);
    names.push(texts.names.source.as_str())?;
    Ok(names)
}

/// The task `run` of the source of an image.
fn run_of<'a>(
    alloc: Global,
    task: RunImageTask<'a>,
    texts: &'a ImageTexts,
) -> Result<RunTask<'a>, NoMemory>
    ensures { IfOk result (IsRunOf task.entry texts.entry.now) }
{
    let sources = names_of(alloc, texts)?;
    Ok(RunTask {
        sources,
        steps: task.steps,
        files: files_of(task.image, texts),
        results: task.results,
        reading: plain_reading(alloc),
        faults: task.faults,
    })
}

/// The task `debug` of the source of an image.
fn debug_of<'a>(
    alloc: Global,
    task: DebugImageTask<'a>,
    texts: &'a ImageTexts,
) -> Result<DebugTask<'a>, NoMemory>
    ensures { IfOk result (IsDebugOf task.entry texts.entry.now) }
{
    let sources = names_of(alloc, texts)?;
    Ok(DebugTask {
        sources,
        script: task.script,
        interactive: task.interactive,
        files: files_of(task.image, texts),
        reading: plain_reading(alloc),
        faults: task.faults,
    })
}

/// Runs the sources of a task where files stand on the disk in addition, and after that writes the files of counts that are
/// asked for.
fn run_with<D: Disk, O: Write>(
    alloc: Global,
    task: &RunTask<'_>,
    fronts: &[Front],
    disk: &mut D,
    out: &mut O,
) -> Report
    ensures { DoesRun (fronted (map entry_of fronts.now) (D.bytes_of disk.old)) (with_fronts (map entry_of fronts.now) (D.opens disk.old)) task.now result.ending (string_bytes result.note) (O.contents out.old, O.contents out.new) (D.written disk.old, D.written disk.new) }
{
    let sources = Sources {
        names: &task.sources,
        definitions: &task.reading.definitions,
        folders: &task.reading.folders,
    };
    let notes = source_notes(task.faults, task.files, None, sources, &[]);
    let run = run_task(alloc, task, notes, &Fronted { disk, fronts }, out);
    write_counts(alloc, run, task.results, notes, disk)
}

/// Runs the source of an image.
fn run_texts<D: Disk, O: Write>(
    alloc: Global,
    task: RunImageTask<'_>,
    texts: &ImageTexts,
    disk: &mut D,
    out: &mut O,
) -> Report
    ensures { RunsTexts (D.bytes_of disk.old) (D.opens disk.old) task.entry texts.now result.ending (string_bytes result.note) (O.contents out.old, O.contents out.new) (D.written disk.old, D.written disk.new) }
{
    match run_of(alloc, task, texts) {
        Ok(run) => run_with(alloc, &run, texts.fronts.as_slice(), disk, out),
        Err(error) => Report::without_note(alloc, Ending::NoMemory(error)),
    }
}

/// Debugs the source of an image, whose texts stand on the disk in addition.
fn debug_with<D: Disk, R: Read, O: Write>(
    alloc: Global,
    named: Debugged<'_>,
    disk: &D,
    input: &mut R,
    out: &mut O,
) -> Report
    ensures { DebugsTexts (D.bytes_of disk.now) (D.opens disk.now) (R.remaining input.old) named.entry.task named.entry.texts.now result.ending (string_bytes result.note) (O.contents out.old, O.contents out.new) }
{
    let Debugged { task, texts } = named;
    match debug_of(alloc, task, texts) {
        Ok(task) => {
            let fronted = Fronted {
                disk,
                fronts: texts.fronts.as_slice(),
            };
            debug(alloc, &task, &fronted, input, out)
        }
        Err(error) => Report::without_note(alloc, Ending::NoMemory(error)),
    }
}

/// Makes a source of an image, and runs it as the sources of a task are run; or reports why there is none.
pub(crate) fn run_image<D: Disk, O: Write>(
    alloc: Global,
    task: &RunImageTask<'_>,
    disk: &mut D,
    out: &mut O,
) -> Report
    ensures { DoesRunImage (D.bytes_of disk.old) (D.opens disk.old) task.now result.ending (string_bytes result.note) (O.contents out.old, O.contents out.new) (D.written disk.old, D.written disk.new) }
{
    match image_texts(alloc, task.image, task.faults.explain, disk) {
        Ok(texts) => run_texts(alloc, *task, &texts, disk, out),
        Err(report) => report,
    }
}

/// Makes a source of an image, and debugs it as the sources of a task are debugged; or reports why there is none.
pub(crate) fn debug_image<D: Disk, R: Read, O: Write>(
    alloc: Global,
    task: &DebugImageTask<'_>,
    disk: &D,
    input: &mut R,
    out: &mut O,
) -> Report
    ensures { DoesDebugImage (D.bytes_of disk.now) (D.opens disk.now) (R.remaining input.old) task.now result.ending (string_bytes result.note) (O.contents out.old, O.contents out.new) }
{
    match image_texts(alloc, task.image, task.faults.explain, disk) {
        Ok(texts) => {
            let named = Debugged {
                task: *task,
                texts: &texts,
            };
            debug_with(alloc, named, disk, input, out)
        }
        Err(report) => report,
    }
}
