//! `trace`: the last jumps of the run so far.

ghost use Rattle.std.specs.Prelude.{◌≡◌, ◌≤◌, ◌++◌, IfOk, List, OnOk, length, string_bytes};
ghost use Rattle.c25_board.specs.Board.{state, steps};
ghost use Rattle.c25_meaning_processor.specs.Signals.{signals_of};
ghost use Rattle.c25_meaning_processor.specs.State.{State};
ghost use Rattle.c25_meaning_processor.specs.WordStep.{WordStep};
ghost use Rattle.c25_prompt.specs.Back.{CanReach};
ghost use Rattle.c25_prompt.specs.Lasts.{last_of};
ghost use Rattle.c25_prompt.specs.Trace.{IsTrace, Jumps, and_jump, jump_of};
ghost use Rattle.c25_prompt_texts.specs.Jumps.{jumps_text};
ghost use Rattle.c25_prompt_texts.specs.declared.jumps.Jump as jump;

use crate::again::step_again;
use crate::going::PromptBoard;
use crate::lasts::keep_last;
use crate::start::Start;
use c25_debug::steps::{Answer, shown};
use c25_link::Image;
use c25_meaning_common::no_memory::NoMemory;
use c25_prompt_texts::jumps::{Jump, push_jump};
use std::alloc::Global;
use std::collections::VecDeque;

/// The jump of the last step of a board, before which PC was `from`, if it was one.
fn jump_of(from: u16, board: &PromptBoard) -> Option<Jump>
    ensures { result ≡ jump_of (steps board.now) from (state board.now).registers.pc }
{
    let to = board.pc();
    if to.wrapping_sub(from) <= 2 {
        return None;
    }
    Some(Jump {
        steps: board.steps(),
        from,
        to,
    })
}

/// Keeps the jump of a step, if it was one, of the last so many.
fn keep_jump(jumps: &mut VecDeque<Jump>, most: u32, jump: Option<Jump>) -> Result<(), NoMemory>
    requires { length jumps.old.items ≤ most }
    ensures { OnOk result (jumps.new.items ≡ last_of most (and_jump jumps.old.items jump)) }
{
    match jump {
        None => Ok(()),
        Some(jump) => keep_last(jumps, most, jump),
    }
}

/// The last jumps among the first n steps from the first state on, at most so many.
fn last_jumps<B: Start>(alloc: Global, start: &B, n: u32, most: u32) -> Result<Vec<Jump>, NoMemory>
    requires { CanReach (B.schedule start.now) n (B.first start.now) }
    ensures { IfOk result (λ kept. (jumps : List jump.Jump) × (last : State) × Jumps WordStep (signals_of (B.schedule start.now)) 0 n (B.first start.now) jumps last × (kept.items ≡ last_of most jumps)) }
{
    let mut board = start.board()?;
    let mut jumps = VecDeque::new(alloc);
    for _done in 0..n {
        let from = board.pc();
        step_again(start, &mut board)?;
        keep_jump(&mut jumps, most, jump_of(from, &board))?;
    }
    Ok(jumps.into_vec())
}

/// Appends the lines of jumps in a program.
fn push_jumps(text: &mut String, image: &Image, jumps: &[Jump]) -> Result<(), NoMemory>
    ensures { OnOk result (string_bytes text.new ≡ string_bytes text.old ++ jumps_text image.now jumps.now) }
{
    for jump in jumps {
        push_jump(text, jump, image.line_of(jump.from))?;
    }
    Ok(())
}

/// The answer to `trace`: the last jumps among the first n steps from the first state on, at most so many.
pub(crate) fn answer_trace<B: Start>(
    alloc: Global,
    start: &B,
    image: &Image,
    n: u32,
    most: u32,
) -> Result<Answer, NoMemory>
    requires { CanReach (B.schedule start.now) n (B.first start.now) }
    ensures { IfOk result (λ answer. IsTrace WordStep (signals_of (B.schedule start.now)) image.now (B.first start.now) n most (string_bytes answer.text)) }
{
    let jumps = last_jumps(alloc, start, n, most)?;
    let mut text = String::new(alloc);
    push_jumps(&mut text, image, jumps.as_slice())?;
    Ok(shown(text))
}
