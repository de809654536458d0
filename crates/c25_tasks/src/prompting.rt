//! The task `debug` at the prompt.

ghost use Rattle.std.specs.Prelude.{string_bytes};
ghost use Rattle.c25_inputs.specs.Files.{source_names};
ghost use Rattle.c25_tasks.specs.Prompting.{PromptsTold, TellsSession};

use crate::report::report_of_fault;
use c25_disk::disk::Disk;
use c25_prompt::conversation::Broken;
use c25_prompting::prompting::{PromptNames, debug_at_prompt};
use c25_prompting::unread::unread_input;
use c25_report::ending::{Ending, Report};
use c25_source_notes::notes::SourceNotes;
use std::alloc::Global;
use std::io::{Read, Write};

/// The report of a session that ended: all lines were answered, or why it broke off.
fn report_session<D: Disk>(
    alloc: Global,
    disk: &D,
    ended: Result<(), Broken>,
    notes: SourceNotes<'_>,
) -> Report
    ensures { TellsSession (D.bytes_of disk.now) notes.entry ended result.ending (string_bytes result.note) }
{
    match ended {
        Ok(()) => Report::without_note(alloc, Ending::Done),
        Err(Broken::NoMemory(error)) => Report::without_note(alloc, Ending::NoMemory(error)),
        Err(Broken::Unwritten) => Report::without_note(alloc, Ending::Unprinted),
        Err(Broken::Unread) => report_of_fault(alloc, disk, unread_input(alloc), notes),
    }
}

/// The names of the files of a session at the prompt, and what is reported of a fault.
#[derive(Clone, Copy)]
pub(crate) struct PromptOptions<'a> {
    pub(crate) named: PromptNames<'a>,
    /// The notes of a fault.
    pub(crate) notes: SourceNotes<'a>,
}

/// Debugs sources by the commands of standard input, and prints the answer to each before the next is read.
pub(crate) fn prompt_sources<D: Disk, R: Read, O: Write>(
    alloc: Global,
    options: PromptOptions<'_>,
    disk: &D,
    input: &mut R,
    out: &mut O,
) -> Report
    ensures { PromptsTold (D.bytes_of disk.now) options.entry.notes (source_names options.entry.named.sources) options.entry.named.files (R.remaining input.old) result.ending (string_bytes result.note) (O.contents out.old, O.contents out.new) }
{
    let PromptOptions { named, notes } = options;
    match debug_at_prompt(alloc, named, disk, input, out) {
        Ok(ended) => report_session(alloc, disk, ended, notes),
        Err(fault) => report_of_fault(alloc, disk, fault, notes),
    }
}
