//! The task of a program without a command line: a source on standard input is run.

ghost use Rattle.std.specs.Prelude.{string_bytes};
ghost use Rattle.c25_inputs.specs.Files.{ComesTo};
ghost use Rattle.c25_tasks.specs.Running.{ReadiesInput, ReadiesText, Runs};

use crate::copies::Run;
use crate::report::{RunOptions, report_run};
use c25_chain::RunTexts;
use c25_chain::fault::{ChainFault, Fault};
use c25_chain::ready::Ready;
use c25_disk::disk::Disk;
use c25_disk::fault::FileFault;
use c25_disk::{CannotRead, read_text};
use c25_explain::notes::Notes;
use c25_inputs::files::names_of;
use c25_inputs::work::work_over;
use c25_macro::files::{FileTwice, Files};
use c25_meaning_common::failure::Failure;
use c25_meaning_common::placed::Placed;
use c25_options::task::DEFAULT_STEPS;
use c25_report::ending::Report;
use c25_run::{PrintedRun, RunDetails};
use c25_source_notes::notes::SourceNotes;
use std::alloc::Global;
use std::io::{Read, Write};

/// The name of standard input as a source.
const STANDARD_INPUT: &str = "stdin";

/// Makes the program of a text as the one source ready to run; the files that it copies are read from a disk.
fn ready_text<D: Disk>(alloc: Global, disk: &D, text: &str) -> Result<Ready, Fault>
    ensures { ReadiesText (D.bytes_of disk.now) text.now result }
{
    let mut files = Files::new(alloc);
    match files.add(STANDARD_INPUT, text) {
        Ok(()) => {}
        Err(Failure::NoMemory(error)) => return Err(error.into()),
        Err(Failure::Fault(FileTwice)) => unreachable!(),
    }
    let sources = names_of(alloc, &[STANDARD_INPUT])?;
    let work = Run {
        sources: sources.as_slice(),
        texts: RunTexts {
            command: "",
            samples: "",
            schedule: "",
        },
    };
    work_over(alloc, disk, files, &work)
}

/// Reads a text, and makes its program ready to run.
fn answer<D: Disk, R: Read>(alloc: Global, disk: &D, reader: &mut R) -> Result<Ready, Fault>
    ensures { ReadiesInput (D.bytes_of disk.now) (R.remaining reader.old) result }
{
    match read_text(alloc, reader) {
        Ok(text) => ready_text(alloc, disk, text.as_str()),
        Err(Failure::NoMemory(error)) => Err(error.into()),
        Err(Failure::Fault(CannotRead)) => {
            let place = String::from_str(alloc, STANDARD_INPUT)?;
            let fault = FileFault::CannotRead;
            Err(Failure::Fault(ChainFault::File(Placed { place, fault })))
        }
    }
}

/// Reads a source, runs it for `DEFAULT_STEPS` steps, and prints the run as it goes.
pub(crate) fn run_standard_input<D: Disk, R: Read, O: Write>(
    alloc: Global,
    disk: &D,
    input: &mut R,
    out: &mut O,
) -> Report
    ensures { Runs (D.bytes_of disk.now) (R.remaining input.old) result.ending (string_bytes result.note) (O.contents out.old, O.contents out.new) }
{
    let ready = answer(alloc, disk, input);
    let details = RunDetails {
        regs: false,
        when: false,
    };
    let options = RunOptions {
        steps: DEFAULT_STEPS,
        details,
        notes: SourceNotes::Plain(Notes::Nothing),
    };
    let PrintedRun { report, .. } = report_run(alloc, disk, ready, options, out);
    report
}
