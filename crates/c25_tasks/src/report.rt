//! Answers and faults as endings and reports.

ghost use Rattle.std.specs.Prelude.{◌≡◌, IfOk, IfSome, string_bytes};
ghost use Rattle.c25_inputs.specs.Files.{source_names};
ghost use Rattle.c25_options.specs.Task.{texts_of};
ghost use Rattle.c25_tasks.specs.Reading.{AreNotesUnder};
ghost use Rattle.c25_tasks.specs.Tells.{IsAnswerOrReport, IsOfSources, IsReportOf, LeavesAnswer, TellsAnswers, TellsRun, is_done};

use c25_chain::fault::Fault;
use c25_chain::ready::Ready;
use c25_chain::write_fault;
use c25_disk::disk::Disk;
use c25_inputs::sources::Sources;
use c25_meaning_common::failure::Failure;
use c25_options::task::{FaultOptions, RunFiles};
use c25_report::ending::{Ending, Report};
use c25_report::printing::print_answers;
use c25_run::{PrintedRun, RunDetails, print_run};
use c25_source_notes::notes::{SourceNotes, note_of_sources, source_notes};
use std::alloc::Global;
use std::io::Write;

/// The notes that options ask for, of a task that reads no samples, schedule or script. The
/// command file, sources and objects are read again for them.
pub(crate) fn notes_under<'a>(
    options: FaultOptions,
    command: Option<&'a str>,
    sources: Sources<'a>,
    objects: &'a [&'a str],
) -> SourceNotes<'a>
    ensures { AreNotesUnder options command.entry (source_names sources.entry) (texts_of objects.entry.now) result }
{
    let files = RunFiles {
        command,
        samples: None,
        schedule: None,
    };
    source_notes(options, files, None, sources, objects)
}

/// Whether all that was asked for is done.
pub(crate) fn is_done(ending: &Ending) -> bool
    ensures { result ≡ is_done ending.now }
{
    match ending {
        Ending::Done => true,
        _ => false,
    }
}

/// The report of a failure: the line of its fault, and the note after it.
pub(crate) fn report_of_fault<D: Disk>(
    alloc: Global,
    disk: &D,
    fault: Fault,
    notes: SourceNotes<'_>,
) -> Report
    ensures { IsReportOf (D.bytes_of disk.now) notes.entry fault result.ending (string_bytes result.note) }
{
    match &fault {
        Failure::NoMemory(error) => Report::without_note(alloc, Ending::NoMemory(*error)),
        Failure::Fault(refusal) => match write_fault(alloc, &fault) {
            Ok(line) => {
                let ending = Ending::Faulty(line);
                let note = note_of_sources(alloc, disk, refusal, notes);
                Report { ending, note }
            }
            Err(error) => Report::without_note(alloc, Ending::NoMemory(error)),
        },
    }
}

/// What there is, or the report of the failure.
pub(crate) fn answer_or_report<A: Drop, D: Disk>(
    alloc: Global,
    disk: &D,
    answer: Result<A, Fault>,
    notes: SourceNotes<'_>,
) -> Result<A, Report>
    ensures { IsAnswerOrReport (D.bytes_of disk.now) notes.entry answer result }
{
    match answer {
        Ok(answer) => Ok(answer),
        Err(fault) => Err(report_of_fault(alloc, disk, fault, notes)),
    }
}

/// Prints a text, as the answers of a debugger or a disassembly, or answers the report of the failure.
pub(crate) fn report_answers<D: Disk, O: Write>(
    alloc: Global,
    disk: &D,
    answer: Result<String, Fault>,
    notes: SourceNotes<'_>,
    out: &mut O,
) -> Report
    ensures { TellsAnswers (D.bytes_of disk.now) notes.entry answer result.ending (string_bytes result.note) (O.contents out.old, O.contents out.new) }
{
    match answer {
        Ok(text) => {
            let ending = print_answers(text.as_str(), out);
            Report::without_note(alloc, ending)
        }
        Err(fault) => report_of_fault(alloc, disk, fault, notes),
    }
}

/// How long a run is, and what is printed and reported of it.
#[derive(Clone, Copy)]
pub(crate) struct RunOptions<'a> {
    pub(crate) steps: u32,
    pub(crate) details: RunDetails,
    /// The notes of a fault.
    pub(crate) notes: SourceNotes<'a>,
}

/// Runs a program and prints the run as it goes, or answers the report of the failure; and where the run left
/// the code.
pub(crate) fn report_run<D: Disk, O: Write>(
    alloc: Global,
    disk: &D,
    answer: Result<Ready, Fault>,
    options: RunOptions<'_>,
    out: &mut O,
) -> PrintedRun
    ensures told { IfOk answer IsOfSources → TellsRun (D.bytes_of disk.now) options.entry.notes options.entry.steps options.entry.details answer result.report.ending (string_bytes result.report.note) (O.contents out.old, O.contents out.new) }
    ensures left { IfOk answer IsOfSources → IfSome result.left (LeavesAnswer options.entry.steps answer) }
{
    match answer {
        Ok(ready) => print_run(alloc, ready, options.steps, options.details, out),
        Err(fault) => PrintedRun {
            report: report_of_fault(alloc, disk, fault, options.notes),
            left: None,
        },
    }
}
