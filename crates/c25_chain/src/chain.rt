//! The whole chain: from the texts of sources to the outputs of their run.

ghost use Rattle.std.specs.Prelude.{◌≡◌, IfOk, map, string_bytes};
ghost use Rattle.c25_meaning_common.specs.Results.{MeetsBy, told};
ghost use Rattle.c25_meaning_processor.specs.Samples.{samples_of};
ghost use Rattle.c25_meaning_processor.specs.Schedule.{schedule_of};
ghost use Rattle.c25_chain.specs.Refusal.{refusal_of};
ghost use Rattle.c25_chain.specs.Chain.{Answers, given_of, inputs_of, inputs_view, run_of, texts_of};
ghost use Rattle.c25_chain.specs.Headline.{CodeStays, HoldsSourceWords, MarksStatements, OfProgram, RunsAsSources, TellsStatementsRun};
ghost use Rattle.c25_chain.specs.Linked as linked;
ghost use Rattle.c25_chain.specs.Ready.{Readies};
ghost use Rattle.c25_chain.specs.Run.{run_data};
ghost use Rattle.c25_chain.specs.declared.fault.ChainFault.TheVariants as refusal;

use crate::built::{Built, build};
use crate::fault::{ChainFault, Fault};
use crate::laws::answers_run_as_their_sources;
use crate::linked::Linked;
use crate::page::Page;
use crate::ready::Ready;
use crate::run::{RunResult, run_linked};
use c25_board::board::Outcome;
use c25_board::samples::{Samples, read_samples};
use c25_board::schedule::{Schedule, read_schedule};
use c25_macro::files::Files;
use c25_meaning_common::failure::Failure;
use c25_meaning_common::placed::Placed;
use c25_meaning_processor::registers::Regs;
use std::alloc::Global;

/// The answer of the chain: the texts of the program, and its run.
#[derive(Drop)]
pub struct Chain {
    /// The Intel hex text of page 0, program memory.
    pub page0: String,
    /// The Intel hex text of page 1, data memory.
    pub page1: String,
    /// The linker's map.
    pub map: String,
    /// The text of a listing for each source.
    pub listings: Vec<String>,
    /// The outputs in order: each a port, 0 to 15, and a word.
    pub outputs: Vec<(u16, u16)>,
    /// The registers at the end of the run.
    pub regs: Regs,
    /// The 65,536 words of data memory at the end of the run. The words of block B0 are at 200h to 2FFh,
    /// whether or not CNFP has moved it to program memory.
    pub memory: Vec<u16>,
    /// How the run ended.
    pub outcome: Outcome,
    /// How many steps were done.
    pub steps: u32,
}

/// Reads the text of samples. A wrong line is fault 91.
pub fn samples_in(alloc: Global, text: &str) -> Result<Samples, Fault>
    ensures { MeetsBy refusal_of (λ samples. samples) (told refusal.Samples (samples_of text.now)) result }
{
    match read_samples(alloc, text) {
        Ok(samples) => Ok(samples),
        Err(Failure::NoMemory(error)) => Err(error.into()),
        Err(Failure::Fault(Placed { place: line, .. })) => {
            Err(Failure::Fault(ChainFault::Samples { line }))
        }
    }
}

/// Reads the text of a schedule. A wrong line is fault 90.
pub fn schedule_in(alloc: Global, text: &str) -> Result<Schedule, Fault>
    ensures { MeetsBy refusal_of (λ schedule. schedule) (told refusal.Schedule (schedule_of text.now)) result }
{
    match read_schedule(alloc, text) {
        Ok(schedule) => Ok(schedule),
        Err(Failure::NoMemory(error)) => Err(error.into()),
        Err(Failure::Fault(Placed { place: line, .. })) => {
            Err(Failure::Fault(ChainFault::Schedule { line }))
        }
    }
}

/// Reads the texts of samples and of a schedule.
fn inputs_in(alloc: Global, samples: &str, schedule: &str) -> Result<(Samples, Schedule), Fault>
    ensures { MeetsBy refusal_of inputs_view (inputs_of samples.now schedule.now) result }
{
    let samples = samples_in(alloc, samples)?;
    match schedule_in(alloc, schedule) {
        Ok(schedule) => Ok((samples, schedule)),
        Err(refusal) => Err(refusal),
    }
}

/// The texts of the files that a run reads in addition to its sources.
#[derive(Clone, Copy)]
pub struct RunTexts<'a> {
    /// The linker's command file.
    pub command: &'a str,
    /// The samples: the words that `IN` reads.
    pub samples: &'a str,
    /// The schedule: interrupts and levels of BIO by steps.
    pub schedule: &'a str,
}

/// Assembles sources, links their modules under a command file, and reads the samples and the schedule of a
/// run, so that the run itself can fail only when memory runs out.
///
/// The first fault in this order is the answer: the sources, one after another (10 to 56), a line of the
/// command file (60 to 63), linking (70 to 76 and 78), the samples (91), the schedule (90).
pub fn make_ready(
    alloc: Global,
    files: &Files,
    sources: &[String],
    texts: RunTexts<'_>,
) -> Result<Ready, Fault>
    ensures { Readies (given_of files.now (map string_bytes sources.now) texts.entry.command.now texts.entry.samples.now texts.entry.schedule.now) result }
{
    let built = build(alloc, files, sources, texts.command)?;
    match inputs_in(alloc, texts.samples, texts.schedule) {
        Ok((samples, schedule)) => Ok(Ready {
            built,
            samples,
            schedule,
        }),
        Err(refusal) => Err(refusal),
    }
}

/// The answer of the chain for a program and its run.
pub fn chain_of(built: Built, done: RunResult) -> Chain
    ensures texts { texts_of result ≡ linked.texts_of built.linked }
    ensures listings { result.listings ≡ built.listings }
    ensures run { run_of result ≡ run_data done }
{
    let Built { linked, listings } = built;
    let Linked {
        image: _,
        page0,
        page1,
        map,
    } = linked;
    let Page { text: page0, .. } = page0;
    let Page { text: page1, .. } = page1;
    Chain {
        page0,
        page1,
        map,
        listings,
        outputs: done.outputs,
        regs: done.regs,
        memory: done.memory,
        outcome: done.outcome,
        steps: done.steps,
    }
}

/// Assembles sources, links their modules under a command file, and runs n steps of the program with these
/// samples and this schedule of interrupt lines and BIO levels.
///
/// The texts of the sources are in `files`. Each module is written as an object and read back, and the words
/// of both pages are written as hex texts and read back. Without sources the program has no words. The first
/// fault in this order is the answer: the sources, one after another (10 to 56), a line of the command file
/// (60 to 63), linking (70 to 76 and 78), the samples (91), the schedule (90). Out of memory, for the list of
/// outputs too, is `NoMemory`.
pub fn run_chain(
    alloc: Global,
    files: &Files,
    sources: &[String],
    command: &str,
    samples: &str,
    schedule: &str,
    n: u32,
) -> Result<Chain, Fault>
    ensures answer { Answers (given_of files.now (map string_bytes sources.now) command.now samples.now schedule.now) n result }
    ensures hex_texts_hold_the_words { IfOk result (λ chain. OfProgram (HoldsSourceWords chain) files.now (map string_bytes sources.now) command.now chain) }
    ensures marks_are_statements { IfOk result (OfProgram MarksStatements files.now (map string_bytes sources.now) command.now) }
    ensures runs_agree { IfOk result (OfProgram RunsAsSources files.now (map string_bytes sources.now) command.now) }
    ensures code_stays { IfOk result (OfProgram CodeStays files.now (map string_bytes sources.now) command.now) }
    ensures own_run_is_the_statements { IfOk result (TellsStatementsRun (given_of files.now (map string_bytes sources.now) command.now samples.now schedule.now) n) }
{
    answers_run_as_their_sources();
    let texts = RunTexts {
        command,
        samples,
        schedule,
    };
    let Ready {
        built,
        samples,
        schedule,
    } = make_ready(alloc, files, sources, texts)?;
    match run_linked(alloc, &built.linked, samples, schedule, n) {
        Ok(done) => Ok(chain_of(built, done)),
        Err(error) => Err(error.into()),
    }
}
