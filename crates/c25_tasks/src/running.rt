//! The task `run`.

ghost use Rattle.std.specs.Prelude.{◌≡◌, ℕ, IfOk, IfSome, string_bytes, true};
ghost use Rattle.c25_inputs.specs.Files.{source_names};
ghost use Rattle.c25_tasks.specs.Running.{HasEnded, HasLeft, IsEndOf, IsExplainedEnd, IsWhyEnded, ReadiesFrom, RunsAlone, RunsTold, is_explained, is_explained_in};

use crate::copies::Run;
use crate::report::{RunOptions, report_run};
use c25_chain::RunTexts;
use c25_chain::fault::Fault;
use c25_chain::ready::Ready;
use c25_disk::disk::Disk;
use c25_explain::notes::Notes;
use c25_inputs::files::read_optional;
use c25_inputs::sources::{Inputs, Sources, inputs_of};
use c25_inputs::work::work_over;
use c25_options::task::RunFiles;
use c25_report::ending::{Ending, Report};
use c25_run::{LeftAt, PrintedRun};
use c25_run_ends::end_note;
use c25_source_notes::notes::SourceNotes;
use c25_unused_inputs::requests::RunEnd;
use std::alloc::Global;
use std::io::Write;

/// The names of the files of a run: the sources, and the files that the run reads in addition to them.
#[derive(Clone, Copy)]
pub(crate) struct RunNames<'a> {
    pub(crate) sources: Sources<'a>,
    pub(crate) files: RunFiles<'a>,
}

/// Reads the sources, then the command file, the samples and the schedule, and makes the program ready to
/// run.
fn answer<D: Disk>(alloc: Global, disk: &D, named: RunNames<'_>) -> Result<Ready, Fault>
    ensures { ReadiesFrom (D.bytes_of disk.now) (source_names named.entry.sources) named.entry.files result }
{
    let inputs = inputs_of(alloc, disk, named.sources, named.files)?;
    let Inputs {
        files,
        names,
        beside,
        ..
    } = inputs;
    let texts = RunTexts {
        command: beside.command.as_str(),
        samples: beside.samples.as_str(),
        schedule: beside.schedule.as_str(),
    };
    let work = Run {
        sources: names.as_slice(),
        texts,
    };
    work_over(alloc, disk, files, &work)
}

/// The sources of a run, how long the run is, and what is printed and reported of it.
#[derive(Clone, Copy)]
pub(crate) struct RunAsked<'a> {
    pub(crate) named: RunNames<'a>,
    pub(crate) options: RunOptions<'a>,
}

/// Runs the program of sources, and prints the run as it goes, or answers the report of why there is none; and
/// where the run left the code.
fn print_ready<D: Disk, O: Write>(
    alloc: Global,
    disk: &D,
    ready: Result<Ready, Fault>,
    asked: RunAsked<'_>,
    out: &mut O,
) -> PrintedRun
    requires { ReadiesFrom (D.bytes_of disk.now) (source_names asked.named.sources) asked.named.files ready }
    ensures told { RunsAlone (D.bytes_of disk.now) asked.entry.options.notes (source_names asked.entry.named.sources) asked.entry.options.steps asked.entry.options.details asked.entry.named.files result.report.ending (string_bytes result.report.note) (O.contents out.old, O.contents out.new) }
    ensures left { IfSome result.left (HasLeft (D.bytes_of disk.now) (source_names asked.entry.named.sources) asked.entry.options.steps asked.entry.named.files) }
{
    report_run(alloc, disk, ready, asked.options, out)
}

/// How a run of so many steps ended, by where it left the code; `None` where it was not printed to its end.
fn run_end(left: Option<LeftAt>, ending: &Ending, steps: u32) -> Option<RunEnd>
    ensures { IfSome result (IsEndOf left steps) }
{
    match left {
        Some(left) => Some(RunEnd {
            steps: left.step,
            stop: Some(left.stop),
        }),
        None => match ending {
            Ending::Done => Some(RunEnd { steps, stop: None }),
            _ => None,
        },
    }
}

/// What is said of the end of a run of sources. The files are read again for it.
fn why_it_ended<D: Disk>(
    alloc: Global,
    disk: &D,
    named: RunNames<'_>,
    end: RunEnd,
) -> Result<String, Fault>
    ensures { IfOk result (λ why. IsWhyEnded (D.bytes_of disk.now) (source_names named.entry.sources) named.entry.files end (string_bytes why)) }
{
    let ready = answer(alloc, disk, named)?;
    let samples = read_optional(alloc, disk, named.files.samples)?;
    match end_note(alloc, ready, samples.as_str(), end) {
        Ok(note) => Ok(note),
        Err(error) => Err(error.into()),
    }
}

/// A note, and after it what is said of the end of a run of sources, unless memory runs out for that.
fn with_why<D: Disk>(
    alloc: Global,
    disk: &D,
    named: RunNames<'_>,
    end: RunEnd,
    mut note: String,
) -> String
    ensures { (steps : ℕ) → HasEnded (D.bytes_of disk.now) (source_names named.entry.sources) steps named.entry.files end
        → IsExplainedEnd (D.bytes_of disk.now) true (source_names named.entry.sources) steps named.entry.files (string_bytes note) (string_bytes result) }
{
    let Ok(why) = why_it_ended(alloc, disk, named, end) else {
        return note;
    };
    match note.push_str(why.as_str()) {
        Ok(()) => note,
        Err(_) => note,
    }
}

/// Whether notes ask for an explanation.
fn is_explained_in(notes: Notes<'_>) -> bool
    ensures { result ≡ is_explained_in notes.entry }
{
    match notes {
        Notes::Nothing => false,
        Notes::After(options, _) => options.explain,
    }
}

/// Whether an explanation is asked for.
pub(crate) fn is_explained(notes: SourceNotes<'_>) -> bool
    ensures { result ≡ is_explained notes.entry }
{
    match notes {
        SourceNotes::Plain(notes) => is_explained_in(notes),
        SourceNotes::Reading(notes, _) => is_explained_in(notes),
    }
}

/// Runs the program of sources, and prints the run as it goes, or reports why there is none. The note has the
/// registers at the end of the run, and what is said of that end, or the explanation of a fault, where these are
/// asked for.
pub(crate) fn run_ready<D: Disk, O: Write>(
    alloc: Global,
    disk: &D,
    ready: Result<Ready, Fault>,
    asked: RunAsked<'_>,
    out: &mut O,
) -> Report
    requires { ReadiesFrom (D.bytes_of disk.now) (source_names asked.named.sources) asked.named.files ready }
    ensures { RunsTold (D.bytes_of disk.now) asked.entry.options.notes (source_names asked.entry.named.sources) asked.entry.options.steps asked.entry.options.details asked.entry.named.files result.ending (string_bytes result.note) (O.contents out.old, O.contents out.new) }
{
    let PrintedRun { report, left } = print_ready(alloc, disk, ready, asked, out);
    if !is_explained(asked.options.notes) {
        return report;
    }
    let Some(end) = run_end(left, &report.ending, asked.options.steps) else {
        return report;
    };
    let Report { ending, note } = report;
    let note = with_why(alloc, disk, asked.named, end, note);
    Report { ending, note }
}

/// Runs sources, and prints the run as it goes.
pub(crate) fn run_sources<D: Disk, O: Write>(
    alloc: Global,
    disk: &D,
    asked: RunAsked<'_>,
    out: &mut O,
) -> Report
    ensures { RunsTold (D.bytes_of disk.now) asked.entry.options.notes (source_names asked.entry.named.sources) asked.entry.options.steps asked.entry.options.details asked.entry.named.files result.ending (string_bytes result.note) (O.contents out.old, O.contents out.new) }
{
    let ready = answer(alloc, disk, asked.named);
    run_ready(alloc, disk, ready, asked, out)
}
