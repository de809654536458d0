//! Programs that are ready to run, with how often the lines of their sources are run.

ghost use Rattle.std.specs.Option.{option_map};
ghost use Rattle.std.specs.Prelude.{◌≡◌};
ghost use Rattle.c25_inputs.specs.Files.{missing_name, source_names};
ghost use Rattle.c25_tasks.specs.Counting.{CountsFrom};

use crate::copies::Run;
use crate::running::RunNames;
use c25_chain::fault::{ChainFault, Fault};
use c25_chain::ready::Ready;
use c25_chain::{RunTexts, make_ready};
use c25_coverage::{LineCounts, coverage};
use c25_disk::disk::Disk;
use c25_disk::work::Work;
use c25_inputs::files::missing_name;
use c25_inputs::sources::{Inputs, inputs_of};
use c25_inputs::work::work_over;
use c25_macro::files::Files;
use c25_meaning_common::failure::Failure;
use std::alloc::Global;

/// A program that is ready to run, and how often the lines of its sources are run.
#[derive(Drop)]
pub(crate) struct CountedReady {
    pub(crate) ready: Ready,
    pub(crate) counts: LineCounts,
}

/// A task over files: sources to run, and to count in so many steps.
#[derive(Clone, Copy)]
pub(crate) struct CountedRun<'a> {
    pub(crate) run: Run<'a>,
    pub(crate) steps: u32,
}

impl<'a> Work for CountedRun<'a> {
    ghost use Rattle.c25_inputs.specs.Files.{missing_name};
    ghost use Rattle.c25_tasks.specs.Counting.{ReadiesCounted};
    ghost use Rattle.c25_tasks.specs.View.{readied_of};

    type Answer = CountedReady;

    type Fault = ChainFault<String>;

    ghost comes_to = { λ work files result. ReadiesCounted (readied_of files work.run) work.steps result };

    ghost missing_of = { missing_name };

    fn answer(&self, alloc: Global, files: &Files) -> Result<CountedReady, Fault> {
        let ready = make_ready(alloc, files, self.run.sources, self.run.texts)?;
        let again = make_ready(alloc, files, self.run.sources, self.run.texts)?;
        match coverage(alloc, files, again, self.steps) {
            Ok(counts) => Ok(CountedReady { ready, counts }),
            Err(error) => Err(Failure::NoMemory(error)),
        }
    }

    fn missing(fault: &ChainFault<String>) -> Option<&str>
        ensures { option_map (λ name. name.now) result ≡ missing_name fault.now }
    {
        missing_name(fault)
    }
}

/// Reads the sources, then the command file, the samples and the schedule, makes the program ready to run, and
/// counts how often each line of the sources is run in so many steps.
pub(crate) fn counted_answer<D: Disk>(
    alloc: Global,
    disk: &D,
    named: RunNames<'_>,
    steps: u32,
) -> Result<CountedReady, Fault>
    ensures { CountsFrom (D.bytes_of disk.now) (source_names named.entry.sources) steps named.entry.files result }
{
    let inputs = inputs_of(alloc, disk, named.sources, named.files)?;
    let Inputs {
        files,
        names,
        beside,
        ..
    } = inputs;
    let texts = RunTexts {
        command: beside.command.as_str(),
        samples: beside.samples.as_str(),
        schedule: beside.schedule.as_str(),
    };
    let run = Run {
        sources: names.as_slice(),
        texts,
    };
    let work = CountedRun { run, steps };
    work_over(alloc, disk, files, &work)
}
