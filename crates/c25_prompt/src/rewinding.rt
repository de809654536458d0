//! `rback`: back to where a run would have stopped.

ghost use Rattle.std.specs.Prelude.{◌≡◌, ◌≤◌, ◌-◌, IfOk, string_bytes};
ghost use Rattle.c25_board.specs.Board.{entries, signals, state, steps};
ghost use Rattle.c25_meaning_processor.specs.WordStep.{WordStep};
ghost use Rattle.c25_prompt.specs.Back.{CanReach};
ghost use Rattle.c25_prompt.specs.Point.{point_of};
ghost use Rattle.c25_prompt.specs.Prompt.{BacksTo};
ghost use Rattle.c25_prompt.specs.Rewound.{IsLastStop};
ghost use Rattle.c25_prompt.specs.Runs.{Goes};
ghost use Rattle.c25_prompt.specs.Session.{IsOnRun};

use crate::ended::Ended;
use crate::going::{PromptBoard, go};
use crate::running::ended_line;
use crate::start::{Start, board_after};
use crate::stops::Stops;
use c25_debug::steps::Answer;
use c25_meaning_common::no_memory::NoMemory;
use c25_run_laws::runs::words_end_once;
use std::alloc::Global;

/// Where a run from the first state on last stopped: how, and after how many steps.
#[derive(Clone, Copy)]
pub(crate) struct Stopped {
    pub ended: Ended,
    pub steps: u32,
}

/// A run from where a board is up to step n, none after a stop.
fn run_on(alloc: Global, board: &mut PromptBoard, n: u32, stops: &Stops) -> Result<Ended, NoMemory>
    requires { steps board.old ≤ n }
    ensures run { IfOk result (λ ended. Goes WordStep (signals board.old) stops.now.breakpoints stops.now.watches (steps board.old) (n - steps board.old) (state board.old) ended (steps board.new) (state board.new)) }
    ensures schedule { entries board.new ≡ entries board.old }
{
    let more = n - board.steps();
    go(
        alloc,
        board,
        more,
        &stops.breakpoints,
        stops.watches.as_slice(),
    )
}

/// Where a run of n steps from the first state on last met a breakpoint or changed a watched word; its first
/// state where it did neither.
fn last_stop<B: Start>(alloc: Global, start: &B, n: u32, stops: &Stops) -> Result<Stopped, NoMemory>
    requires { CanReach (B.schedule start.now) n (B.first start.now) }
    ensures { IfOk result (λ last. IsLastStop (B.schedule start.now) stops.now.breakpoints stops.now.watches (B.first start.now) n last) }
{
    words_end_once();
    let mut board = start.board()?;
    let mut last = Stopped {
        ended: Ended::Ran,
        steps: 0,
    };
    for _turn in 0..n {
        let ended = run_on(alloc, &mut board, n, stops)?;
        if ended.may_go_on() {
            return Ok(last);
        }
        last = Stopped {
            ended,
            steps: board.steps(),
        };
    }
    Ok(last)
}

/// The answer to `rback`: the board goes to the last point before at which a breakpoint is met or a watched word
/// is another, or else to the first.
pub(crate) fn answer_back_to<B: Start>(
    alloc: Global,
    start: &B,
    board: &mut PromptBoard,
    stops: &Stops,
) -> Result<Answer, NoMemory>
    requires { IsOnRun (B.schedule start.now) (B.first start.now) (entries board.old) (steps board.old) (state board.old) }
    ensures answer { IfOk result (λ answer. BacksTo WordStep (signals board.old) (B.first start.now) (point_of board.old stops.now) (string_bytes answer.text) (point_of board.new stops.now)) }
    ensures schedule { IfOk result (λ answer. entries board.new ≡ entries board.old) }
{
    words_end_once();
    let last = last_stop(alloc, start, board.steps().saturating_sub(1), stops)?;
    *board = board_after(start, last.steps)?;
    ended_line(alloc, board, &last.ended)
}
