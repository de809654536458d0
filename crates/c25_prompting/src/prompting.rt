//! The sources of a disk, debugged at the prompt.

ghost use Rattle.std.specs.Prelude.{OnErr};
ghost use Rattle.std.specs.Io.KnownBytes.{Keeps};
ghost use Rattle.c25_inputs.specs.Files.{source_names};
ghost use Rattle.c25_prompting.specs.Prompting.{PromptsFrom};

use crate::debugged::Debugging;
use crate::session::hold_session;
use c25_chain::RunTexts;
use c25_chain::fault::Fault;
use c25_chain::laws::answers_run_as_their_sources;
use c25_disk::disk::Disk;
use c25_inputs::sources::{Inputs, Sources, inputs_of};
use c25_inputs::work::work_over;
use c25_options::task::RunFiles;
use c25_prompt::conversation::Broken;
use c25_prompt::laws::conversations_answer_alike;
use std::alloc::Global;
use std::io::{Read, Write};

/// The names of the files of a session at the prompt: the sources, and the files that the run reads in addition
/// to them.
#[derive(Clone, Copy)]
pub struct PromptNames<'a> {
    pub sources: Sources<'a>,
    pub files: RunFiles<'a>,
}

/// Reads the sources, then the command file, the samples and the schedule, and answers the lines of a reader over
/// their program, each before the next is read, up to `quit` or the last. Where the sources have no program, or
/// the samples or the schedule cannot be read, the answer is the first fault, and nothing is read or written.
pub fn debug_at_prompt<D: Disk, R: Read, O: Write>(
    alloc: Global,
    named: PromptNames<'_>,
    disk: &D,
    input: &mut R,
    out: &mut O,
) -> Result<Result<(), Broken>, Fault>
    ensures answer { PromptsFrom (D.bytes_of disk.now) (source_names named.entry.sources) named.entry.files (R.remaining input.old) (O.contents out.old) (O.contents out.new) result }
    ensures quiet { OnErr result (Keeps (O.contents out.old) (O.contents out.new)) }
{
    answers_run_as_their_sources();
    conversations_answer_alike();
    let inputs = inputs_of(alloc, disk, named.sources, named.files)?;
    let Inputs {
        files,
        names,
        shown,
        beside,
    } = inputs;
    let texts = RunTexts {
        command: beside.command.as_str(),
        samples: beside.samples.as_str(),
        schedule: beside.schedule.as_str(),
    };
    let work = Debugging {
        sources: names.as_slice(),
        shown: shown.as_slice(),
        texts,
    };
    match work_over(alloc, disk, files, &work) {
        Ok(debugged) => Ok(hold_session(alloc, &debugged, work, input, out)),
        Err(fault) => Err(fault),
    }
}
