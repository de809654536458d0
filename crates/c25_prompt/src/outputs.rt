//! `outputs`: the last outputs of the run so far, each with its step.

ghost use Rattle.std.specs.Prelude.{◌≡◌, ◌≤◌, ◌++◌, ◌∷◌, [], IfOk, List, OnOk, drop, length, string_bytes};
ghost use Rattle.c25_board.specs.Board.{state};
ghost use Rattle.c25_meaning_processor.specs.Signals.{signals_of};
ghost use Rattle.c25_meaning_processor.specs.State.{State};
ghost use Rattle.c25_meaning_processor.specs.WordStep.{WordStep};
ghost use Rattle.c25_prompt.specs.Back.{CanReach};
ghost use Rattle.c25_prompt.specs.Lasts.{last_of};
ghost use Rattle.c25_prompt.specs.Outputs.{AreOutputs, PutOut, at_step};
ghost use Rattle.c25_prompt_texts.specs.declared.outputs.TimedOutput as timed;

use crate::again::step_again;
use crate::going::PromptBoard;
use crate::lasts::keep_last;
use crate::start::Start;
use c25_debug::steps::{Answer, shown};
use c25_meaning_common::no_memory::NoMemory;
use c25_prompt_texts::outputs::{TimedOutput, push_outputs};
use c25_run_laws::outputs::steps_put_one_output_at_most;
use std::alloc::Global;
use std::collections::VecDeque;

/// The outputs of a board after the first so many.
fn outputs_after(board: &PromptBoard, before: usize) -> &[(u16, u16)]
    requires { before ≤ length (state board.now).world.outputs }
    ensures { result.now ≡ drop before (state board.entry.now).world.outputs }
{
    &board.sink().words()[before..]
}

/// Keeps the outputs of a step with which so many are done, of the last so many.
fn keep_outputs(
    kept: &mut VecDeque<TimedOutput>,
    most: u32,
    steps: u32,
    outputs: &[(u16, u16)],
) -> Result<(), NoMemory>
    requires { length kept.old.items ≤ most }
    ensures { OnOk result (kept.new.items ≡ last_of most (kept.old.items ++ at_step steps outputs.now)) }
{
    for (port, word) in outputs {
        let output = TimedOutput {
            steps,
            port: *port,
            word: *word,
        };
        keep_last(kept, most, output)?;
    }
    Ok(())
}

/// The last outputs of the first n steps from the first state on, at most so many.
fn last_outputs<B: Start>(
    alloc: Global,
    start: &B,
    n: u32,
    most: u32,
) -> Result<Vec<TimedOutput>, NoMemory>
    requires { CanReach (B.schedule start.now) n (B.first start.now) }
    ensures { IfOk result (λ kept. (outputs : List timed.TimedOutput) × (last : State) × PutOut WordStep (signals_of (B.schedule start.now)) 0 n (B.first start.now) outputs last × (kept.items ≡ last_of most outputs)) }
{
    steps_put_one_output_at_most();
    let mut board = start.board()?;
    let mut kept = VecDeque::new(alloc);
    for _done in 0..n {
        let before = board.sink().words().len();
        step_again(start, &mut board)?;
        keep_outputs(
            &mut kept,
            most,
            board.steps(),
            outputs_after(&board, before),
        )?;
    }
    Ok(kept.into_vec())
}

/// The answer to `outputs`: the last outputs of the first n steps from the first state on, at most so many.
pub(crate) fn answer_outputs<B: Start>(
    alloc: Global,
    start: &B,
    n: u32,
    most: u32,
) -> Result<Answer, NoMemory>
    requires { CanReach (B.schedule start.now) n (B.first start.now) }
    ensures { IfOk result (λ answer. AreOutputs WordStep (signals_of (B.schedule start.now)) (B.first start.now) n most (string_bytes answer.text)) }
{
    let outputs = last_outputs(alloc, start, n, most)?;
    let mut text = String::new(alloc);
    push_outputs(&mut text, outputs.as_slice())?;
    Ok(shown(text))
}
