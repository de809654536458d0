//! The task `run`, with files for how often each line of the sources was run.

ghost use Rattle.std.specs.Prelude.{◌≡◌, ◌++◌, ◌&&◌, ℕ, IfNone, IfOk, IfSome, None, Ok, OnOk, false, map, string_bytes, true};
ghost use Rattle.c25_disk.specs.Held.{Held};
ghost use Rattle.c25_disk.specs.Written.{contents_of};
ghost use Rattle.c25_inputs.specs.Files.{SourceNames, source_names};
ghost use Rattle.c25_options.specs.Task.{text_of, texts_of};
ghost use Rattle.c25_options.specs.declared.task.RunFiles.{RunFiles};
ghost use Rattle.c25_tasks.specs.Counting.{AreCountsFrom, CountsFrom, DoesRun, WritesCounts, counts_files, file_of, is_counted, is_run};
ghost use Rattle.c25_tasks.specs.Reading.{read_by, run_files, sources_under};
ghost use Rattle.c25_tasks.specs.Running.{RunsTold, details_of};
ghost use Rattle.c25_tasks.specs.Tells.{IsReportOf, WritesAfter};

use crate::counted::{CountedReady, counted_answer};
use crate::report::{RunOptions, report_of_fault};
use crate::running::{RunAsked, RunNames, run_ready, run_sources};
use c25_chain::fault::Fault;
use c25_coverage::LineCounts;
use c25_disk::disk::Disk;
use c25_disk::{Output, write_outputs};
use c25_fronts::folders::InFolders;
use c25_inputs::files::fault_of_file;
use c25_inputs::sources::Sources;
use c25_meaning_common::no_memory::NoMemory;
use c25_options::task::{RunResults, RunTask};
use c25_report::ending::{Ending, Report};
use c25_run::RunDetails;
use c25_source_notes::notes::{SourceNotes, source_notes};
use std::alloc::Global;
use std::io::Write;

/// Whether a file of counts is asked for.
fn is_counted(results: RunResults<'_>) -> bool
    ensures { result ≡ is_counted results.entry }
{
    results.counts.is_some() || results.counts_list.is_some()
}

/// Whether the program ends as one whose run was printed to its end.
fn is_run(ending: &Ending) -> bool
    ensures { result ≡ is_run ending.now }
{
    matches!(ending, Ending::Done | Ending::Left)
}

/// Appends the file of this name with a text, if one is named.
fn push_file<'a>(
    outputs: &mut Vec<Output<'a>>,
    name: Option<&'a str>,
    text: String,
) -> Result<(), NoMemory>
    ensures { OnOk result (map contents_of outputs.new.items
        ≡ map contents_of outputs.old.items ++ file_of (text_of name.entry) (string_bytes text)) }
{
    match name {
        None => Ok(()),
        Some(name) => {
            let bytes = text.into_bytes();
            Ok(outputs.push(Output { name, bytes })?)
        }
    }
}

/// The files of counts that are asked for.
fn outputs_of<'a>(
    alloc: Global,
    results: RunResults<'a>,
    counts: LineCounts,
) -> Result<Vec<Output<'a>>, NoMemory>
    ensures { IfOk result (λ outputs. map contents_of outputs.items
        ≡ counts_files results.entry (string_bytes counts.lcov) (string_bytes counts.list)) }
{
    let LineCounts { lcov, list } = counts;
    let mut outputs = Vec::new(alloc);
    push_file(&mut outputs, results.counts, lcov)?;
    push_file(&mut outputs, results.counts_list, list)?;
    Ok(outputs)
}

/// Writes files after a report, and answers that report, or that of the file that cannot be written; it is the
/// same whatever the disk holds.
fn write_after<D: Disk>(
    alloc: Global,
    report: Report,
    outputs: &[Output<'_>],
    notes: SourceNotes<'_>,
    disk: &mut D,
) -> Report
    ensures { (held : Held) → WritesAfter held notes.entry (map contents_of outputs.now) report.ending (string_bytes report.note) result.ending (string_bytes result.note) (D.written disk.old, D.written disk.new) }
{
    match write_outputs(alloc, disk, outputs) {
        Ok(()) => report,
        Err(failure) => report_of_fault(alloc, disk, fault_of_file(failure), notes),
    }
}

/// The report of a run, and how often the lines of its sources were run, where the program was ready to run.
#[derive(Drop)]
pub(crate) struct CountedReport {
    report: Report,
    counts: Option<LineCounts>,
}

/// Runs a program that is counted, and prints the run as it goes.
fn report_counted<D: Disk, O: Write>(
    alloc: Global,
    disk: &D,
    counted: CountedReady,
    asked: RunAsked<'_>,
    out: &mut O,
) -> CountedReport
    requires { CountsFrom (D.bytes_of disk.now) (source_names asked.named.sources) asked.options.steps asked.named.files (Ok counted) }
    ensures told { RunsTold (D.bytes_of disk.now) asked.entry.options.notes (source_names asked.entry.named.sources) asked.entry.options.steps asked.entry.options.details asked.entry.named.files result.report.ending (string_bytes result.report.note) (O.contents out.old, O.contents out.new) }
    ensures counts { IfSome result.counts (λ c. AreCountsFrom (D.bytes_of disk.now) (source_names asked.entry.named.sources) asked.entry.options.steps asked.entry.named.files (string_bytes c.lcov) (string_bytes c.list)) }
    ensures none { IfNone result.counts (is_run result.report.ending ≡ false) }
{
    let CountedReady { ready, counts } = counted;
    let report = run_ready(alloc, disk, Ok(ready), asked, out);
    CountedReport {
        report,
        counts: Some(counts),
    }
}

/// The report of sources that are refused.
fn report_refused<D: Disk>(
    alloc: Global,
    disk: &D,
    fault: Fault,
    notes: SourceNotes<'_>,
) -> CountedReport
    ensures report { IsReportOf (D.bytes_of disk.now) notes.entry fault result.report.ending (string_bytes result.report.note) }
    ensures counts { result.counts ≡ None }
{
    CountedReport {
        report: report_of_fault(alloc, disk, fault, notes),
        counts: None,
    }
}

/// Counts how often the lines of sources are run, and then runs them and prints the run as it goes.
fn run_counted<D: Disk, O: Write>(
    alloc: Global,
    disk: &D,
    asked: RunAsked<'_>,
    out: &mut O,
) -> CountedReport
    ensures told { RunsTold (D.bytes_of disk.now) asked.entry.options.notes (source_names asked.entry.named.sources) asked.entry.options.steps asked.entry.options.details asked.entry.named.files result.report.ending (string_bytes result.report.note) (O.contents out.old, O.contents out.new) }
    ensures counts { IfSome result.counts (λ c. AreCountsFrom (D.bytes_of disk.now) (source_names asked.entry.named.sources) asked.entry.options.steps asked.entry.named.files (string_bytes c.lcov) (string_bytes c.list)) }
    ensures none { IfNone result.counts (is_run result.report.ending ≡ false) }
{
    match counted_answer(alloc, disk, asked.named, asked.options.steps) {
        Ok(counted) => report_counted(alloc, disk, counted, asked, out),
        Err(fault) => report_refused(alloc, disk, fault, asked.options.notes),
    }
}

/// Whether files of counts are written after a report.
fn writes_counts(results: RunResults<'_>, ending: &Ending) -> bool
    ensures { result ≡ (is_counted results.entry && is_run ending.now) }
{
    is_counted(results) && is_run(ending)
}

/// Writes the files of counts that are asked for after a run that was printed to its end, and answers the report of
/// the run, or that of the file that cannot be written.
pub(crate) fn write_counts<D: Disk>(
    alloc: Global,
    run: CountedReport,
    results: RunResults<'_>,
    notes: SourceNotes<'_>,
    disk: &mut D,
) -> Report
    requires { is_counted results ≡ true → IfNone run.counts (is_run run.report.ending ≡ false) }
    ensures { (held : Held) (sources : SourceNames) (steps : ℕ) (files : RunFiles) → IfSome run.counts (λ c. AreCountsFrom held sources steps files (string_bytes c.lcov) (string_bytes c.list))
        → WritesCounts (is_counted results.entry && is_run run.report.ending) held notes.entry sources steps files results.entry run.report.ending (string_bytes run.report.note) result.ending (string_bytes result.note) (D.written disk.old, D.written disk.new) }
{
    let CountedReport { report, counts } = run;
    if !writes_counts(results, &report.ending) {
        return report;
    }
    let Some(counts) = counts else {
        return report;
    };
    match outputs_of(alloc, results, counts) {
        Ok(outputs) => write_after(alloc, report, outputs.as_slice(), notes, disk),
        Err(error) => Report::without_note(alloc, Ending::NoMemory(error)),
    }
}

/// Runs the sources of a task, and prints the run as it goes; counts how often their lines are run, where files of
/// counts are asked for.
pub(crate) fn run_task<D: Disk, O: Write>(
    alloc: Global,
    task: &RunTask<'_>,
    notes: SourceNotes<'_>,
    disk: &D,
    out: &mut O,
) -> CountedReport
    ensures told { RunsTold (read_by (texts_of task.now.sources.items) (run_files task.now.files) task.now.reading (D.opens disk.now) (D.bytes_of disk.now)) notes.entry (sources_under task.now.sources.items task.now.reading) task.now.steps (details_of task.now.results) task.now.files result.report.ending (string_bytes result.report.note) (O.contents out.old, O.contents out.new) }
    ensures counts { IfSome result.counts (λ c. AreCountsFrom (read_by (texts_of task.now.sources.items) (run_files task.now.files) task.now.reading (D.opens disk.now) (D.bytes_of disk.now)) (sources_under task.now.sources.items task.now.reading) task.now.steps task.now.files (string_bytes c.lcov) (string_bytes c.list)) }
    ensures none { is_counted task.now.results ≡ true → IfNone result.counts (is_run result.report.ending ≡ false) }
{
    let sources = Sources {
        names: &task.sources,
        definitions: &task.reading.definitions,
        folders: &task.reading.folders,
    };
    let named = RunNames {
        sources,
        files: task.files,
    };
    let details = RunDetails {
        regs: task.results.regs,
        when: task.results.when,
    };
    let options = RunOptions {
        steps: task.steps,
        details,
        notes,
    };
    let asked = RunAsked { named, options };
    let beside = [task.files.command, task.files.samples, task.files.schedule];
    let disk = InFolders {
        disk,
        folders: sources.folders,
        sources: sources.names,
        beside: &beside,
    };
    if is_counted(task.results) {
        return run_counted(alloc, &disk, asked, out);
    }
    let report = run_sources(alloc, &disk, asked, out);
    CountedReport {
        report,
        counts: None,
    }
}

/// Runs the sources of a task, prints the run as it goes, and after that writes the files of counts that are asked
/// for.
pub(crate) fn run<D: Disk, O: Write>(
    alloc: Global,
    task: &RunTask<'_>,
    disk: &mut D,
    out: &mut O,
) -> Report
    ensures { DoesRun (D.bytes_of disk.old) (D.opens disk.old) task.now result.ending (string_bytes result.note) (O.contents out.old, O.contents out.new) (D.written disk.old, D.written disk.new) }
{
    let sources = Sources {
        names: &task.sources,
        definitions: &task.reading.definitions,
        folders: &task.reading.folders,
    };
    let notes = source_notes(task.faults, task.files, None, sources, &[]);
    let run = run_task(alloc, task, notes, disk, out);
    write_counts(alloc, run, task.results, notes, disk)
}
