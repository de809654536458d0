//! The printed run of a linked program.

ghost use Rattle.std.specs.Prelude.{◌≡◌, ◌⊎◌, ℕ, [], IfNone, IfOk, IfSome, List, None, OnErr, string_bytes, true};
ghost use Rattle.c25_board.specs.declared.board.Outcome.TheVariants as outcomes;
ghost use Rattle.c25_board.specs.Board.{entries, signals, state, steps};
ghost use Rattle.c25_chain.specs.Chain.{Given};
ghost use Rattle.c25_chain.specs.OutcomeText.{outcome_of, steps_of};
ghost use Rattle.c25_chain.specs.Ready.{IsReady};
ghost use Rattle.c25_chain.specs.Run.{last_state};
ghost use Rattle.c25_meaning_image.specs.Marks.{fit_from, run_fit};
ghost use Rattle.c25_meaning_processor.specs.FirstState.{first_of_pages};
ghost use Rattle.c25_meaning_processor.specs.Run as runs;
ghost use Rattle.c25_meaning_processor.specs.Samples.{samples_at};
ghost use Rattle.c25_report.specs.Ending as endings;
ghost use Rattle.c25_report.specs.declared.ending.Ending.TheVariants as reported;
ghost use Rattle.c25_run_laws.specs.Behind.{behind};
ghost use Rattle.c25_run.specs.Printed.{IsFresh, PrintsAll, PrintsFront};
ghost use Rattle.c25_run.specs.Run.{LeavesFrom, LeavesRun, PrintsAnswer, PrintsFrom, PrintsRun, PrintsStatements, TellsEnd};

use crate::batch::Batch;
use crate::printing::{BatchBoard, print_board};
use crate::timed::print_timed_board;
use c25_board::board::{Board, Outcome};
use c25_board::samples::Samples;
use c25_board::schedule::Schedule;
use c25_chain::laws::{
    answers_run_as_their_sources, ready_programs_run_as_answered,
    ready_programs_run_as_their_sources,
};
use c25_chain::linked::Linked;
use c25_chain::ready::Ready;
use c25_chain::where_it_stands;
use c25_link::Image;
use c25_meaning_common::no_memory::NoMemory;
use c25_meaning_processor::stop::Stop;
use c25_report::ending::{Ending, Report};
use c25_report::printing::{Unwritten, ending_of};
use c25_run_laws::outputs::{outputs_have_no_part_in_runs, steps_put_one_output_at_most};
use c25_run_laws::runs::{image_runs_as_statements, two_runs_are_one, words_end_once};
use std::alloc::Global;
use std::io::Write;

/// The inputs of a run: the words that `IN` reads, and the levels of the interrupt lines and of BIO by steps.
#[derive(Drop)]
struct Stimulus {
    samples: Samples,
    schedule: Schedule,
}

/// What is printed and reported of a run in addition to its outputs and how it ended.
#[derive(Clone, Copy)]
pub struct RunDetails {
    /// Whether the registers after the run are reported.
    pub regs: bool,
    /// Whether each output is printed after the number of its step.
    pub when: bool,
}

/// How long a run is, and what is printed and reported of it.
#[derive(Clone, Copy)]
struct RunOptions {
    steps: u32,
    details: RunDetails,
}

/// The step that stopped, and why.
#[derive(Clone, Copy)]
pub struct LeftAt {
    /// The number of the step, counted from 0: so many steps were done.
    pub step: u32,
    pub stop: Stop,
}

/// A printed run.
#[derive(Drop)]
pub struct PrintedRun {
    pub report: Report,
    /// Where the run left the code; `None` where it did not, or was not printed to its end.
    pub left: Option<LeftAt>,
}

/// The report of a run that is not printed to its end.
fn not_printed(alloc: Global, ending: Ending) -> PrintedRun
    ensures ending { result.report.ending ≡ ending }
    ensures note { string_bytes result.report.note ≡ [] }
    ensures left { result.left ≡ None }
{
    PrintedRun {
        report: Report::without_note(alloc, ending),
        left: None,
    }
}

/// Where a run with this outcome left the code, if it did.
fn left_at(outcome: &Outcome) -> Option<LeftAt>
    ensures some { IfSome result (λ left. outcome.now ≡ outcomes.Left left.step left.stop) }
    ensures none { IfNone result (endings.ending_of outcome.now ≡ reported.Left → ⊥) }
{
    match outcome {
        Outcome::Left(step, stop) => Some(LeftAt {
            step: *step,
            stop: *stop,
        }),
        Outcome::Ran | Outcome::SinkFault(_) => None,
    }
}

/// The board of a linked program after a reset, with a sink for one batch of outputs.
fn board_of(alloc: Global, linked: &Linked, stimulus: Stimulus) -> Result<BatchBoard, NoMemory>
    requires marks { fit_from 0 linked.now.image.marks ≡ true }
    requires run_marks { run_fit linked.now.image.marks linked.now.image.run_marks ≡ true }
    ensures state { IfOk result (λ board. state board ≡ first_of_pages linked.now.page0.words linked.now.page1.words linked.now.image.marks linked.now.image.run_marks (samples_at stimulus.samples)) }
    ensures steps { IfOk result (λ board. steps board ≡ 0) }
    ensures schedule { IfOk result (λ board. entries board ≡ stimulus.schedule) }
    ensures fresh { IfOk result (λ board. IsFresh board.devices.sink) }
{
    let Stimulus { samples, schedule } = stimulus;
    let page0 = &linked.page0.words;
    let page1 = &linked.page1.words;
    let marks = linked.image.marks();
    let sink = Batch::new();
    let run_marks = linked.image.run_marks();
    Board::new(
        alloc, page0, page1, marks, run_marks, schedule, samples, sink,
    )
}

/// The report of a printed run: how it ended, and the registers and place of its board, where they are asked
/// for.
fn report_of(
    alloc: Global,
    board: BatchBoard,
    image: &Image,
    outcome: Outcome,
    regs: bool,
) -> Report
    ensures ending { (result.ending ≡ endings.ending_of outcome) ⊎ endings.IsShort result.ending }
    ensures told { (n : ℕ) (end : runs.Ending) (outputs : List (ℕ × ℕ)) → outcome ≡ outcome_of end → steps board ≡ steps_of n end
        → last_state end ≡ behind outputs (state board) → TellsEnd regs image.now (entries board) n end result.ending (string_bytes result.note) }
{
    outputs_have_no_part_in_runs();
    if !regs {
        return Report::without_note(alloc, ending_of(outcome));
    }
    match where_it_stands(alloc, board, image) {
        Ok(note) => Report {
            ending: ending_of(outcome),
            note,
        },
        Err(error) => Report::without_note(alloc, Ending::NoMemory(error)),
    }
}

/// Runs n steps of a new board, or fewer where one stops, and prints their outputs as they go, each after the
/// number of its step where `when` is asked for, and then how the run ended.
fn print_outputs<O: Write>(
    board: &mut BatchBoard,
    n: u32,
    when: bool,
    out: &mut O,
) -> Result<Outcome, Unwritten>
    requires fresh { IsFresh board.old.devices.sink }
    requires first { steps board.old ≡ 0 }
    ensures ok { IfOk result (λ outcome. PrintsAll when (signals board.old) n (state board.old)
        outcome (steps board.new) (state board.new) (O.contents out.old) (O.contents out.new)) }
    ensures err { OnErr result (PrintsFront when (signals board.old) n (state board.old)
        (O.contents out.old) (O.contents out.new)) }
    ensures schedule { entries board.new ≡ entries board.old }
{
    if when {
        print_timed_board(board, n, out)
    } else {
        print_board(board, n, out)
    }
}

/// Runs n steps of a linked program from a reset on, or fewer where one stops, and prints the run as it goes.
fn print_linked<O: Write>(
    alloc: Global,
    linked: &Linked,
    stimulus: Stimulus,
    options: RunOptions,
    out: &mut O,
) -> PrintedRun
    requires marks { fit_from 0 linked.now.image.marks ≡ true }
    requires run_marks { run_fit linked.now.image.marks linked.now.image.run_marks ≡ true }
    ensures printed { PrintsFrom options.details linked.now.image stimulus.schedule options.steps
        (first_of_pages linked.now.page0.words linked.now.page1.words linked.now.image.marks linked.now.image.run_marks (samples_at stimulus.samples))
        result.report.ending (string_bytes result.report.note) (O.contents out.old) (O.contents out.new) }
    ensures left { IfSome result.left (LeavesFrom stimulus.schedule options.steps
        (first_of_pages linked.now.page0.words linked.now.page1.words linked.now.image.marks linked.now.image.run_marks (samples_at stimulus.samples))) }
    ensures none { IfNone result.left (result.report.ending ≡ reported.Left → ⊥) }
{
    let mut board = match board_of(alloc, linked, stimulus) {
        Ok(board) => board,
        Err(error) => return not_printed(alloc, Ending::NoMemory(error)),
    };
    let details = options.details;
    match print_outputs(&mut board, options.steps, details.when, out) {
        Ok(outcome) => {
            let left = left_at(&outcome);
            let report = report_of(alloc, board, &linked.image, outcome, details.regs);
            PrintedRun { report, left }
        }
        Err(_) => not_printed(alloc, Ending::Unprinted),
    }
}

/// Runs n steps of a program from a reset on, or fewer where one stops, prints their outputs as they go, each
/// after the number of its step where that is asked for, and then how the run ended. Except for the registers, all memory is taken before the first step: if it runs
/// out then, nothing is printed. Where the outputs or the last line cannot be printed, the ending is
/// `Unprinted`, and no further step is done.
///
/// Where the registers are asked for, the note has what a debugger answers to `regs` and `where` after the
/// run; memory may run out for it after the run is printed.
///
/// `left` of the answer says which step left the code.
///
/// The printed run is that of the statements of the sources, and has the outputs, the outcome, the number of
/// steps and the registers that `run_chain` answers of the same texts.
pub fn print_run<O: Write>(
    alloc: Global,
    ready: Ready,
    n: u32,
    details: RunDetails,
    out: &mut O,
) -> PrintedRun
    ensures run { (given : Given) → IsReady given ready
        → PrintsRun ready n details result.report.ending (string_bytes result.report.note) (O.contents out.old) (O.contents out.new) }
    ensures statements { (given : Given) → IsReady given ready
        → PrintsStatements given ready n details result.report.ending (string_bytes result.report.note) (O.contents out.old) (O.contents out.new) }
    ensures answer { (given : Given) → IsReady given ready
        → PrintsAnswer given n details result.report.ending (string_bytes result.report.note) (O.contents out.old) (O.contents out.new) }
    ensures left { (given : Given) → IsReady given ready → IfSome result.left (LeavesRun ready n) }
    ensures none { IfNone result.left (result.report.ending ≡ reported.Left → ⊥) }
{
    ready_programs_run_as_their_sources();
    ready_programs_run_as_answered();
    answers_run_as_their_sources();
    image_runs_as_statements();
    steps_put_one_output_at_most();
    two_runs_are_one();
    words_end_once();
    let Ready {
        built,
        samples,
        schedule,
    } = ready;
    let stimulus = Stimulus { samples, schedule };
    let options = RunOptions { steps: n, details };
    print_linked(alloc, &built.linked, stimulus, options, out)
}
