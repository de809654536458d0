//! The task `debug`.

ghost use Rattle.std.specs.Prelude.{string_bytes};
ghost use Rattle.c25_inputs.specs.Files.{source_names};
ghost use Rattle.c25_options.specs.Task.{text_of};
ghost use Rattle.c25_tasks.specs.Debugging.{DebugsAsked, DebugsFrom, DebugsTold, DoesDebug};

use crate::copies::Debug;
use crate::prompting::{PromptOptions, prompt_sources};
use crate::report::report_answers;
use c25_chain::RunTexts;
use c25_chain::fault::Fault;
use c25_disk::disk::Disk;
use c25_fronts::folders::InFolders;
use c25_inputs::files::read_named;
use c25_inputs::sources::{Inputs, Sources, inputs_of};
use c25_inputs::work::work_over;
use c25_options::task::{DebugTask, RunFiles};
use c25_prompting::prompting::PromptNames;
use c25_report::ending::{Ending, Report};
use c25_source_notes::notes::{SourceNotes, source_notes};
use std::alloc::Global;
use std::io::{Read, Write};

/// The names of the files of a session of the debugger: the sources, the script, and the files that the run
/// reads in addition to them.
#[derive(Clone, Copy)]
struct DebugNames<'a> {
    sources: Sources<'a>,
    script: &'a str,
    files: RunFiles<'a>,
}

/// Reads the sources, then the command file, the samples, the schedule and the script, and answers the
/// script.
fn answer<D: Disk>(alloc: Global, disk: &D, named: DebugNames<'_>) -> Result<String, Fault>
    ensures { DebugsFrom (D.bytes_of disk.now) (source_names named.entry.sources) named.entry.script.now named.entry.files result }
{
    let inputs = inputs_of(alloc, disk, named.sources, named.files)?;
    let script = read_named(alloc, disk, named.script)?;
    let Inputs {
        files,
        names,
        beside,
        ..
    } = inputs;
    let work = Debug {
        sources: names.as_slice(),
        texts: RunTexts {
            command: beside.command.as_str(),
            samples: beside.samples.as_str(),
            schedule: beside.schedule.as_str(),
        },
        script: script.as_str(),
    };
    work_over(alloc, disk, files, &work)
}

/// Debugs sources by a script, and prints the answers.
fn debug_sources<D: Disk, O: Write>(
    alloc: Global,
    named: DebugNames<'_>,
    notes: SourceNotes<'_>,
    disk: &D,
    out: &mut O,
) -> Report
    ensures { DebugsTold (D.bytes_of disk.now) notes.entry (source_names named.entry.sources) named.entry.script.now named.entry.files result.ending (string_bytes result.note) (O.contents out.old, O.contents out.new) }
{
    let answers = answer(alloc, disk, named);
    report_answers(alloc, disk, answers, notes, out)
}

/// Sources to debug by a script or by the commands of standard input, and what is reported of a fault.
#[derive(Clone, Copy)]
struct DebugAsked<'a> {
    sources: Sources<'a>,
    script: Option<&'a str>,
    interactive: bool,
    files: RunFiles<'a>,
    notes: SourceNotes<'a>,
}

/// Debugs sources by a script, or by the commands of standard input. Where neither or both is asked for, there are
/// no commands, and nothing is read.
#[tactic(auto, using(crate::proofs::Asked::neither, crate::proofs::Asked::both, crate::proofs::Asked::at_prompt, crate::proofs::Asked::by_script, crate::proofs::Quiet::keeps))]
fn debug_asked<D: Disk, R: Read, O: Write>(
    alloc: Global,
    asked: DebugAsked<'_>,
    disk: &D,
    input: &mut R,
    out: &mut O,
) -> Report
    ensures { DebugsAsked (D.bytes_of disk.now) asked.entry.notes (source_names asked.entry.sources) (text_of asked.entry.script) asked.entry.interactive asked.entry.files (R.remaining input.old) result.ending (string_bytes result.note) (O.contents out.old, O.contents out.new) }
{
    let DebugAsked {
        sources,
        script,
        interactive,
        files,
        notes,
    } = asked;
    match script {
        None => {
            if !interactive {
                return Report::without_note(alloc, Ending::NoCommands);
            }
            let named = PromptNames { sources, files };
            let options = PromptOptions { named, notes };
            prompt_sources(alloc, options, disk, input, out)
        }
        Some(script) => {
            if interactive {
                return Report::without_note(alloc, Ending::NoCommands);
            }
            let named = DebugNames {
                sources,
                script,
                files,
            };
            debug_sources(alloc, named, notes, disk, out)
        }
    }
}

/// Debugs the sources of a task by its script, or by the commands of standard input.
pub(crate) fn debug<D: Disk, R: Read, O: Write>(
    alloc: Global,
    task: &DebugTask<'_>,
    disk: &D,
    input: &mut R,
    out: &mut O,
) -> Report
    ensures { DoesDebug (D.bytes_of disk.now) (D.opens disk.now) (R.remaining input.old) task.now result.ending (string_bytes result.note) (O.contents out.old, O.contents out.new) }
{
    let sources = Sources {
        names: &task.sources,
        definitions: &task.reading.definitions,
        folders: &task.reading.folders,
    };
    let asked = DebugAsked {
        sources,
        script: task.script,
        interactive: task.interactive,
        files: task.files,
        notes: source_notes(task.faults, task.files, task.script, sources, &[]),
    };
    let beside = [
        task.script,
        task.files.command,
        task.files.samples,
        task.files.schedule,
    ];
    let disk = InFolders {
        disk,
        folders: sources.folders,
        sources: sources.names,
        beside: &beside,
    };
    debug_asked(alloc, asked, &disk, input, out)
}
