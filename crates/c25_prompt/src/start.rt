//! Where a session at the prompt begins, and goes back to.

ghost use Rattle.std.specs.Prelude.{◌≡◌, IfOk, List, string_bytes};
ghost use Rattle.c25_board.specs.Board.{entries, signals, state, steps};
ghost use Rattle.c25_meaning_processor.specs.Run.{Reaches};
ghost use Rattle.c25_meaning_processor.specs.Signals.{signals_of};
ghost use Rattle.c25_meaning_processor.specs.State.{State};
ghost use Rattle.c25_meaning_processor.specs.WordStep.{WordStep};
ghost use Rattle.c25_meaning_processor.specs.declared.schedule.ScheduleEntry.{ScheduleEntry};
ghost use Rattle.c25_prompt.specs.Back.{CanReach, IsBack};
ghost use Rattle.c25_prompt.specs.Session.{IsOnRun};

use crate::ended::Ended;
use crate::going::PromptBoard;
use crate::running::ended_line;
use c25_debug::steps::Answer;
use c25_meaning_common::no_memory::NoMemory;
use c25_run_laws::runs::words_end_once;
use std::alloc::Global;

/// Makes boards that stand at the first state of a run.
pub trait Start {
    /// The first state of the run.
    ghost first: { Self → State };

    /// The schedule of the run.
    ghost schedule: { Self → List ScheduleEntry };

    /// A board in the first state with no step done.
    fn board(&self) -> Result<PromptBoard, NoMemory>
        ensures state { IfOk result (λ board. state board ≡ first self.now) }
        ensures steps { IfOk result (λ board. steps board ≡ 0) }
        ensures schedule { IfOk result (λ board. entries board ≡ schedule self.now) };
}

/// A board that stands n steps after the first state, which a run has reached.
pub(crate) fn board_after<B: Start>(start: &B, n: u32) -> Result<PromptBoard, NoMemory>
    requires { CanReach (B.schedule start.now) n (B.first start.now) }
    ensures state { IfOk result (λ board. Reaches WordStep (signals_of (B.schedule start.now)) 0 n (B.first start.now) (state board)) }
    ensures steps { IfOk result (λ board. steps board ≡ n) }
    ensures schedule { IfOk result (λ board. entries board ≡ B.schedule start.now) }
{
    words_end_once();
    let mut board = start.board()?;
    let _outcome = board.run(n);
    match board.sink().refused() {
        Some(refused) => Err(refused),
        None => Ok(board),
    }
}

/// The answer to `back`: the board goes to the point that was so many steps before, but not before the first.
pub(crate) fn answer_back<B: Start>(
    alloc: Global,
    start: &B,
    board: &mut PromptBoard,
    n: u32,
) -> Result<Answer, NoMemory>
    requires { IsOnRun (B.schedule start.now) (B.first start.now) (entries board.old) (steps board.old) (state board.old) }
    ensures answer { IfOk result (λ answer. IsBack (signals board.old) (B.first start.now) n (steps board.old) (string_bytes answer.text) (steps board.new) (state board.new)) }
    ensures schedule { IfOk result (λ answer. entries board.new ≡ entries board.old) }
{
    let steps = board.steps().saturating_sub(n);
    *board = board_after(start, steps)?;
    ended_line(alloc, board, &Ended::Ran)
}
