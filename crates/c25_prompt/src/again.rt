//! Single steps that are done again, from the first state on.

ghost use Rattle.std.specs.Prelude.{◌≡◌, ◌+◌, ◌<◌, ◌^◌, IfOk};
ghost use Rattle.c25_board.specs.Board.{entries, signals, state, steps};
ghost use Rattle.c25_prompt.specs.Back.{CanReach};
ghost use Rattle.c25_prompt.specs.Rewound.{IsStep};
ghost use Rattle.c25_prompt.specs.Session.{IsOnRun};

use crate::going::PromptBoard;
use crate::start::Start;
use c25_meaning_common::no_memory::NoMemory;
use c25_run_laws::runs::words_end_once;

/// The next step of a board on the run from the first state, which the run has done. `NoMemory` where memory
/// runs out for an output.
pub(crate) fn step_again<B: Start>(start: &B, board: &mut PromptBoard) -> Result<(), NoMemory>
    requires reached { IsOnRun (B.schedule start.now) (B.first start.now) (entries board.old) (steps board.old) (state board.old) }
    requires more { CanReach (B.schedule start.now) (steps board.old + 1) (B.first start.now) }
    requires room { steps board.old + 1 < 2 ^ 32 }
    ensures step { IfOk result (λ done. IsStep (signals board.old) (steps board.old) (state board.old) (steps board.new) (state board.new)) }
    ensures schedule { entries board.new ≡ entries board.old }
{
    words_end_once();
    let _outcome = board.run_one();
    match board.sink().refused() {
        Some(refused) => Err(refused),
        None => Ok(()),
    }
}
