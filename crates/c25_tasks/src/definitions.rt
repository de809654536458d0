//! The symbols that a task defines in front of its sources.

ghost use Rattle.std.specs.Option.{option_map};
ghost use Rattle.std.specs.Prelude.{◌≡◌, string_bytes};
ghost use Rattle.c25_options.specs.Task.{texts_of};
ghost use Rattle.c25_tasks.specs.Tells.{IsMisuse};
ghost use Rattle.c25_tasks.specs.Program.{Does, definitions_of, effect_of, first_refused, no_definition_line};

use crate::task::do_task;
use c25_disk::disk::Disk;
use c25_fronts::definition::is_definition;
use c25_meaning_common::no_memory::NoMemory;
use c25_options::task::Task;
use c25_report::ending::{Ending, Report};
use std::alloc::Global;
use std::io::{Read, Write};

/// The symbols that a task defines in front of its sources.
fn definitions_of<'t, 'a>(task: &'t Task<'a>) -> &'t [&'a str]
    ensures { texts_of result.now ≡ definitions_of task.entry.now }
{
    match task {
        Task::Assemble(task) => &task.reading.definitions,
        Task::Build(task) => &task.reading.definitions,
        Task::Run(task) => &task.reading.definitions,
        Task::Debug(task) => &task.reading.definitions,
        Task::Check(task) => &task.reading.definitions,
        Task::RunStandardInput
        | Task::Link(_)
        | Task::RunImage(_)
        | Task::DebugImage(_)
        | Task::Explain { .. }
        | Task::Disassemble(_)
        | Task::Move(_) => &[],
    }
}

/// The first of these texts that defines no symbol.
fn first_refused<'a>(definitions: &[&'a str]) -> Option<&'a str>
    ensures { option_map (λ text. text.now) result ≡ first_refused (texts_of definitions.now) }
{
    for text in definitions {
        if !is_definition(text) {
            return Some(*text);
        }
    }
    None
}

/// How the program ends where a text defines no symbol.
fn misuse(alloc: Global, text: &str) -> Ending
    ensures { IsMisuse (no_definition_line text.now) result }
{
    match format!(in alloc; "c25: -D {text} is no NAME=VALUE") {
        Ok(line) => Ending::Misused(line),
        Err(error) => Ending::NoMemory(NoMemory::from(error)),
    }
}

/// Runs a task: reads its files, prints or writes its results, and answers the report. Where one of its definitions
/// defines no symbol, the report says so, and nothing is read.
pub(crate) fn do_asked_task<D: Disk, R: Read, O: Write>(
    alloc: Global,
    task: &Task<'_>,
    disk: &mut D,
    input: &mut R,
    out: &mut O,
) -> Report
    ensures { Does (D.bytes_of disk.old) (D.opens disk.old) (R.remaining input.old) task.now (effect_of result (O.contents out.old, O.contents out.new) (D.written disk.old, D.written disk.new)) }
{
    match first_refused(definitions_of(task)) {
        Some(text) => Report::without_note(alloc, misuse(alloc, text)),
        None => do_task(alloc, task, disk, input, out),
    }
}
