//! Steps of a board that keeps all of its outputs, with a look at the interrupts that are enabled before each.

ghost use Rattle.std.specs.Prelude.{◌≡◌, ◌+◌, ◌<◌, ◌^◌, IfOk, OnSome};
ghost use Rattle.c25_board.specs.Board.{entries, signals, state, steps};
ghost use Rattle.c25_meaning_processor.specs.Run.{Reaches};
ghost use Rattle.c25_meaning_processor.specs.State.{State};
ghost use Rattle.c25_meaning_processor.specs.WordStep.{WordStep};
ghost use Rattle.c25_unused_inputs.specs.Stepping.{Goes, Watches};
ghost use Rattle.c25_unused_inputs.specs.Watched.{KnowAll};

use crate::requests::Requests;
use crate::watching::look;
use c25_board::board::{Board, Outcome};
use c25_board::ports::ListSink;
use c25_board::samples::Samples;
use c25_meaning_common::no_memory::NoMemory;
use c25_run_laws::runs::{two_runs_are_one, words_end_once};

/// A board that keeps all of its outputs.
pub type RunBoard = Board<Samples, ListSink>;

/// Does n steps of a board, or fewer where one stops. The answer is whether all were done.
pub fn goes(board: &mut RunBoard, n: u32) -> Result<bool, NoMemory>
    requires { steps board.old + n < 2 ^ 32 }
    ensures goes { IfOk result (Goes (signals board.old) (steps board.old) n (state board.old) (steps board.new) (state board.new)) }
    ensures schedule { entries board.new ≡ entries board.old }
{
    let outcome = board.run(n);
    if let Some(refused) = board.sink().refused() {
        return Err(refused);
    }
    match outcome {
        Outcome::Ran => Ok(true),
        Outcome::Left(..) | Outcome::SinkFault(_) => Ok(false),
    }
}

/// Does n steps of a board after those that it has done, and looks before each of them which interrupts are enabled.
/// The answer is what is known of the lines then; `None` where a step stops.
pub fn watched(
    board: &mut RunBoard,
    mut requests: Requests,
    n: u32,
) -> Result<Option<Requests>, NoMemory>
    requires { steps board.old + n < 2 ^ 32 }
    ensures watches { IfOk result (λ after. (s : State) → Reaches WordStep (signals board.old) 0 (steps board.old) s (state board.old)
        → KnowAll (signals board.old) (steps board.old) s requests
        → Watches (signals board.old) (steps board.old + n) s (steps board.new) (state board.new) requests after) }
    ensures count { IfOk result (λ after. OnSome after (steps board.new ≡ steps board.old + n)) }
    ensures schedule { entries board.new ≡ entries board.old }
{
    two_runs_are_one();
    words_end_once();
    for _done in 0..n {
        requests = look(board, requests);
        if !goes(board, 1)? {
            return Ok(None);
        }
    }
    Ok(Some(requests))
}
