//! Sessions at the prompt over a linked program.

ghost use Rattle.std.specs.Prelude.{◌≡◌, is_ok, map, OnOk, string_bytes, true};
ghost use Rattle.c25_chain.specs.Chain.{inputs_of};
ghost use Rattle.c25_meaning_processor.specs.Signals.{signals_of};
ghost use Rattle.c25_meaning_processor.specs.WordStep.{WordStep};
ghost use Rattle.c25_prompt_lines.specs.Addresses.{program_view};
ghost use Rattle.c25_prompting.specs.Debugged.{TalksOver};
ghost use Rattle.c25_prompting.specs.Prompting.{Talks};

use crate::debugged::Debugging;
use crate::program::Debugged;
use crate::start::AfterReset;
use c25_meaning_common::no_memory::NoMemory;
use c25_prompt::conversation::{Broken, converse};
use c25_prompt::session::Prompt;
use c25_prompt::start::Start;
use c25_prompt_lines::program::Program;
use c25_symbols::entries::all_entries;
use std::alloc::{AllocError, Global};
use std::io::{BufReader, Read, Write};

/// Answers the lines of a reader over a program from its first state on, each before the next is read.
fn answer_lines<B: Start, R: Read, O: Write>(
    alloc: Global,
    program: Program<'_>,
    start: &B,
    input: &mut R,
    out: &mut O,
) -> Result<(), Broken>
    ensures { OnOk result (Talks WordStep (signals_of (B.schedule start.now)) (program_view program.entry) (B.first start.now) (R.remaining input.old) (O.contents out.old) (O.contents out.new)) }
{
    let mut prompt = match Prompt::new(alloc, program, start) {
        Ok(prompt) => prompt,
        Err(error) => return Err(Broken::NoMemory(error)),
    };
    // The only error of this call is out of memory.
    let mut reader = match BufReader::new(alloc, input) {
        Ok(reader) => reader,
        Err(_) => return Err(Broken::NoMemory(NoMemory::from(AllocError))),
    };
    converse(&mut prompt, &mut reader, out)
}

/// Answers the lines of a reader over the linked program of a task, from a reset on, with the samples and the
/// schedule of its texts, which can be read.
pub(crate) fn hold_session<R: Read, O: Write>(
    alloc: Global,
    debugged: &Debugged,
    work: Debugging<'_>,
    input: &mut R,
    out: &mut O,
) -> Result<(), Broken>
    requires { is_ok (inputs_of work.texts.samples.now work.texts.schedule.now) ≡ true }
    ensures { OnOk result (TalksOver debugged.now (map string_bytes work.entry.shown.now) work.entry.texts.samples.now work.entry.texts.schedule.now (R.remaining input.old) (O.contents out.old) (O.contents out.new)) }
{
    let Debugging { shown, texts, .. } = work;
    let linked = &debugged.linked;
    let sections = linked.image.map().sections.as_slice();
    let symbols = match all_entries(alloc, debugged.modules.as_slice(), shown, sections) {
        Ok(symbols) => symbols,
        Err(error) => return Err(Broken::NoMemory(NoMemory::from(error))),
    };
    let program = Program {
        symbols: symbols.as_slice(),
        image: &linked.image,
        texts: debugged.texts.as_slice(),
    };
    let start = AfterReset {
        alloc,
        linked,
        samples: texts.samples,
        schedule: texts.schedule,
    };
    answer_lines(alloc, program, &start, input, out)
}
