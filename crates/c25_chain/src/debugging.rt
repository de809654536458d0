//! The chain with the debugger: from the texts of sources to the answers of a script.

ghost use Rattle.std.specs.Prelude.{◌≡◌, IfOk, map, string_bytes, true};
ghost use Rattle.c25_chain.specs.Chain.{given_of};
ghost use Rattle.c25_chain.specs.Debug.{Debugs, DebugsLinked, TellsStatements};
ghost use Rattle.c25_meaning_debugger.specs.Debugger.{AnswersScript};
ghost use Rattle.c25_meaning_image.specs.Marks.{fit_from, run_fit};
ghost use Rattle.c25_meaning_processor.specs.FirstState.{first_of_pages};
ghost use Rattle.c25_meaning_processor.specs.WordStep.{WordStep};
ghost use Rattle.c25_meaning_processor.specs.Samples.{samples_at};
ghost use Rattle.c25_meaning_processor.specs.Signals.{signals_of};

use crate::answers::answers;
use crate::fault::Fault;
use crate::laws::answers_run_as_their_sources;
use crate::linked::Linked;
use crate::ready::Ready;
use crate::script::script_in;
use crate::{RunTexts, board_of, make_ready};
use c25_board::samples::Samples;
use c25_board::schedule::Schedule;
use c25_debug::script::Script;
use c25_debug::session::Session;
use c25_macro::files::Files;
use c25_meaning_common::no_memory::NoMemory;
use c25_meaning_debugger::laws::debuggers_answer_alike;
use std::alloc::Global;

/// The answers of a debugger to a script over a linked program, from a reset on.
fn debug_linked(
    alloc: Global,
    linked: &Linked,
    samples: Samples,
    schedule: Schedule,
    script: &Script,
) -> Result<String, NoMemory>
    requires marks { fit_from 0 linked.now.image.marks ≡ true }
    requires run_marks { run_fit linked.now.image.marks linked.now.image.run_marks ≡ true }
    ensures { IfOk result (λ text. AnswersScript WordStep (signals_of schedule) linked.now.image script.now
        (first_of_pages linked.now.page0.words linked.now.page1.words linked.now.image.marks linked.now.image.run_marks (samples_at samples)) (string_bytes text)) }
{
    let board = board_of(alloc, linked, samples, schedule)?;
    let mut session = Session::new(alloc, board, &linked.image);
    answers(alloc, &mut session, script.as_slice())
}

/// The answers of a debugger to the text of a script over a linked program, from a reset on.
fn debug_text(
    alloc: Global,
    linked: &Linked,
    samples: Samples,
    schedule: Schedule,
    script: &str,
) -> Result<String, Fault>
    requires marks { fit_from 0 linked.now.image.marks ≡ true }
    requires run_marks { run_fit linked.now.image.marks linked.now.image.run_marks ≡ true }
    ensures { DebugsLinked linked.now samples schedule script.now result }
{
    let script = script_in(alloc, script)?;
    match debug_linked(alloc, linked, samples, schedule, &script) {
        Ok(text) => Ok(text),
        Err(error) => Err(error.into()),
    }
}

/// Assembles sources, links their modules under a command file, and answers a script of the debugger over the
/// program, with these samples and this schedule of interrupt lines and BIO levels. The answers stand one
/// after another, each with its line ends.
///
/// The texts of the sources are in `files`. The first fault is the answer, in the order of `run_chain`: the
/// sources (10 to 56), the command file (60 to 63), linking (70 to 76 and 78), the samples (91), the schedule
/// (90), and after them all a line of the script (95). Out of memory, for the list of outputs too, is
/// `NoMemory`. A step that stops is no fault: the stop is the answer to its command, and the next command
/// follows.
pub fn debug_chain(
    alloc: Global,
    files: &Files,
    sources: &[String],
    command: &str,
    samples: &str,
    schedule: &str,
    script: &str,
) -> Result<String, Fault>
    ensures answer { Debugs (given_of files.now (map string_bytes sources.now) command.now samples.now schedule.now) script.now result }
    ensures debugger_agrees { IfOk result (TellsStatements (given_of files.now (map string_bytes sources.now) command.now samples.now schedule.now) script.now) }
{
    answers_run_as_their_sources();
    debuggers_answer_alike();
    let texts = RunTexts {
        command,
        samples,
        schedule,
    };
    let Ready {
        built,
        samples,
        schedule,
    } = make_ready(alloc, files, sources, texts)?;
    debug_text(alloc, &built.linked, samples, schedule, script)
}
