//! A run of a linked program.

ghost use Rattle.std.specs.Prelude.{◌≡◌, IfOk, true};
ghost use Rattle.c25_board.specs.Board.{entries, signals, state, steps};
ghost use Rattle.c25_meaning_image.specs.Marks.{fit_from, run_fit};
ghost use Rattle.c25_meaning_processor.specs.FirstState.{first_of_pages};
ghost use Rattle.c25_meaning_processor.specs.Samples.{samples_at};
ghost use Rattle.c25_chain.specs.Run.{HasRun, HasRunFrom};

use crate::linked::Linked;
use c25_board::board::{Board, Outcome};
use c25_board::ports::ListSink;
use c25_board::samples::Samples;
use c25_board::schedule::Schedule;
use c25_meaning_common::no_memory::NoMemory;
use c25_meaning_processor::registers::Regs;
use std::alloc::Global;

/// The result of a run: its outputs, how it ended, and the registers and data memory at its end.
#[derive(Drop)]
pub struct RunResult {
    /// The outputs in order: each a port and a word.
    pub outputs: Vec<(u16, u16)>,
    pub regs: Regs,
    /// The words of data memory.
    pub memory: Vec<u16>,
    pub outcome: Outcome,
    /// How many steps were done.
    pub steps: u32,
}

/// The board of a linked program after a reset, with a list for its outputs.
pub fn board_of(
    alloc: Global,
    linked: &Linked,
    samples: Samples,
    schedule: Schedule,
) -> Result<Board<Samples, ListSink>, NoMemory>
    requires marks { fit_from 0 linked.now.image.marks ≡ true }
    requires run_marks { run_fit linked.now.image.marks linked.now.image.run_marks ≡ true }
    ensures state { IfOk result (λ board. state board ≡ first_of_pages linked.now.page0.words linked.now.page1.words linked.now.image.marks linked.now.image.run_marks (samples_at samples)) }
    ensures steps { IfOk result (λ board. steps board ≡ 0) }
    ensures schedule { IfOk result (λ board. entries board ≡ schedule) }
{
    let page0 = &linked.page0.words;
    let page1 = &linked.page1.words;
    let marks = linked.image.marks();
    let sink = ListSink::new(alloc);
    let run_marks = linked.image.run_marks();
    Board::new(
        alloc, page0, page1, marks, run_marks, schedule, samples, sink,
    )
}

/// Runs n steps of a new board, and answers the result. `NoMemory` where memory ran out for an output or for
/// the result.
pub fn run_board(
    alloc: Global,
    board: &mut Board<Samples, ListSink>,
    n: u32,
) -> Result<RunResult, NoMemory>
    requires { steps board.old ≡ 0 }
    ensures run { IfOk result (λ done. HasRunFrom (signals board.old) (state board.old) n done (state board.new)) }
    ensures count { IfOk result (λ done. done.steps ≡ steps board.new) }
    ensures schedule { entries board.new ≡ entries board.old }
{
    let outcome = board.run(n);
    if let Some(refused) = board.sink().refused() {
        return Err(refused);
    }
    Ok(RunResult {
        outputs: board.sink().words().to_vec(alloc)?,
        regs: board.regs(),
        memory: board.data().to_vec(alloc)?,
        outcome,
        steps: board.steps(),
    })
}

/// Runs n steps of a linked program, from a reset on.
pub(crate) fn run_linked(
    alloc: Global,
    linked: &Linked,
    samples: Samples,
    schedule: Schedule,
    n: u32,
) -> Result<RunResult, NoMemory>
    requires marks { fit_from 0 linked.now.image.marks ≡ true }
    requires run_marks { run_fit linked.now.image.marks linked.now.image.run_marks ≡ true }
    ensures { IfOk result (λ done. HasRun linked.now.page0.words linked.now.page1.words linked.now.image.marks linked.now.image.run_marks samples schedule n done) }
{
    let mut board = board_of(alloc, linked, samples, schedule)?;
    run_board(alloc, &mut board, n)
}
