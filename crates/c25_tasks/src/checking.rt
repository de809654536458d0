//! The task `check`.

ghost use Rattle.std.specs.Prelude.{◌≡◌, IfOk, string_bytes};
ghost use Rattle.c25_inputs.specs.Files.{source_names};
ghost use Rattle.c25_options.specs.Task.{text_of};
ghost use Rattle.c25_tasks.specs.Checking.{ChecksTold, DoesCheck, IsReportBefore, IsReportWith, ReportsLines};

use crate::report::{notes_under, report_of_fault};
use c25_check::{Asked, Checked, check_sources};
use c25_disk::disk::Disk;
use c25_fronts::folders::InFolders;
use c25_inputs::sources::Sources;
use c25_meaning_common::no_memory::NoMemory;
use c25_options::task::{CheckTask, FaultOptions};
use c25_report::ending::{Ending, Report};
use c25_source_notes::notes::SourceNotes;
use std::alloc::Global;

/// Two texts, owned.
fn owned(alloc: Global, first: &str, second: &str) -> Result<(String, String), NoMemory>
    ensures first { IfOk result (λ texts. string_bytes texts.0 ≡ first.now) }
    ensures second { IfOk result (λ texts. string_bytes texts.1 ≡ second.now) }
{
    let first = String::from_str(alloc, first)?;
    match String::from_str(alloc, second) {
        Ok(second) => Ok((first, second)),
        Err(error) => Err(NoMemory::from(error)),
    }
}

/// The report of warnings, of which the first and the others are given.
fn report_with(alloc: Global, first: &str, others: &str) -> Report
    ensures { IsReportWith first.now others.now result.ending (string_bytes result.note) }
{
    match owned(alloc, first, others) {
        Ok((line, note)) => Report {
            ending: Ending::Faulty(line),
            note,
        },
        Err(error) => Report::without_note(alloc, Ending::NoMemory(error)),
    }
}

/// The report of warnings, each on a line.
fn report_lines(alloc: Global, lines: &str) -> Report
    ensures { ReportsLines lines.now result.ending (string_bytes result.note) }
{
    if lines.is_empty() {
        return Report::without_note(alloc, Ending::Done);
    }
    match lines.split_once('\n') {
        Some((first, others)) => report_with(alloc, first, others),
        None => report_with(alloc, lines, ""),
    }
}

/// A report, with facts after its note.
fn with_facts(alloc: Global, report: Report, facts: &str) -> Report
    ensures { IsReportBefore facts.now (λ e note. (e ≡ report.ending) × (note ≡ string_bytes report.note)) result.ending (string_bytes result.note) }
{
    let Report { ending, mut note } = report;
    match note.push_str(facts) {
        Ok(()) => Report { ending, note },
        Err(error) => Report::without_note(alloc, Ending::NoMemory(NoMemory::from(error))),
    }
}

/// The report of what was found in sources.
fn report_found(alloc: Global, checked: &Checked) -> Report
    ensures { IsReportBefore (string_bytes checked.now.facts) (ReportsLines (string_bytes checked.now.warnings)) result.ending (string_bytes result.note) }
{
    let report = report_lines(alloc, checked.warnings.as_str());
    with_facts(alloc, report, checked.facts.as_str())
}

/// What is checked: sources under a command file, where one is named.
#[derive(Clone, Copy)]
struct Subject<'a> {
    sources: Sources<'a>,
    command: Option<&'a str>,
    asked: Asked,
}

/// Checks sources: reports their warnings, or why their program cannot be built.
fn report_checked<D: Disk>(
    alloc: Global,
    disk: &D,
    checked: Subject<'_>,
    notes: SourceNotes<'_>,
) -> Report
    ensures { ChecksTold checked.entry.asked.explain checked.entry.asked.pages (D.bytes_of disk.now) notes.entry (source_names checked.entry.sources) (text_of checked.entry.command) result.ending (string_bytes result.note) }
{
    let Subject {
        sources,
        command,
        asked,
    } = checked;
    match check_sources(alloc, disk, sources, command, asked) {
        Ok(checked) => report_found(alloc, &checked),
        Err(fault) => report_of_fault(alloc, disk, fault, notes),
    }
}

/// Checks the sources of a task. All faults are reported, whether that is asked for or not.
pub(crate) fn check<D: Disk>(alloc: Global, task: &CheckTask<'_>, disk: &D) -> Report
    ensures { DoesCheck (D.bytes_of disk.now) (D.opens disk.now) task.now result.ending (string_bytes result.note) }
{
    let sources = Sources {
        names: &task.sources,
        definitions: &task.reading.definitions,
        folders: &task.reading.folders,
    };
    let explain = task.faults.explain;
    let options = FaultOptions { explain, all: true };
    let notes = notes_under(options, task.command, sources, &[]);
    let asked = Asked {
        explain,
        pages: task.pages,
    };
    let checked = Subject {
        sources,
        command: task.command,
        asked,
    };
    let beside = [task.command];
    let disk = InFolders {
        disk,
        folders: sources.folders,
        sources: sources.names,
        beside: &beside,
    };
    report_checked(alloc, &disk, checked, notes)
}
