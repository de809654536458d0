//! `inputs`: the samples that ports have left.

ghost use Rattle.std.specs.Prelude.{◌≡◌, IfOk, string_bytes};
ghost use Rattle.c25_board.specs.Board.{entries, state, steps};
ghost use Rattle.c25_prompt.specs.Session.{IsOnRun};
ghost use Rattle.c25_prompt_texts.specs.Inputs.{inputs_shown};
ghost use Rattle.c25_unused_inputs.specs.Ports.{counts_of};

use crate::going::PromptBoard;
use crate::start::{Start, board_after};
use c25_debug::steps::{Answer, shown};
use c25_meaning_common::no_memory::NoMemory;
use c25_prompt_texts::inputs::push_inputs;
use c25_run_laws::runs::words_end_once;
use c25_unused_inputs::ports::counts_of;
use std::alloc::Global;

/// How many samples each port of a board has left. They are taken.
fn take_left(alloc: Global, board: &mut PromptBoard) -> Result<Vec<u64>, NoMemory>
    ensures { IfOk result (λ left. left.items ≡ counts_of (state board.old).world.samples) }
{
    let left = counts_of(alloc, board.feed_mut())?;
    Ok(left)
}

/// How many samples each port of a board has left. They are taken from another board, which is brought to where
/// this one is.
fn samples_left<B: Start>(
    alloc: Global,
    start: &B,
    board: &PromptBoard,
) -> Result<Vec<u64>, NoMemory>
    requires { IsOnRun (B.schedule start.now) (B.first start.now) (entries board.now) (steps board.now) (state board.now) }
    ensures { IfOk result (λ left. left.items ≡ counts_of (state board.now).world.samples) }
{
    words_end_once();
    let mut again = board_after(start, board.steps())?;
    let left = take_left(alloc, &mut again)?;
    Ok(left)
}

/// The answer to `inputs`: how many samples each port has left.
pub(crate) fn answer_inputs<B: Start>(
    alloc: Global,
    start: &B,
    board: &PromptBoard,
) -> Result<Answer, NoMemory>
    requires { IsOnRun (B.schedule start.now) (B.first start.now) (entries board.now) (steps board.now) (state board.now) }
    ensures { IfOk result (λ answer. string_bytes answer.text ≡ inputs_shown (state board.now).world.samples) }
{
    let left = samples_left(alloc, start, board)?;
    let mut text = String::new(alloc);
    push_inputs(&mut text, left.as_slice())?;
    Ok(shown(text))
}
