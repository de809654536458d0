//! Commands at the prompt that do steps.

ghost use Rattle.std.specs.Prelude.{◌≡◌, ◌+◌, ◌-◌, ◌<◌, ◌^◌, List, [], ℕ, IfOk, OnOk, string_bytes};
ghost use Rattle.c25_board.specs.Board.{entries, signals, state, steps};
ghost use Rattle.c25_debug.specs.Told as told;
ghost use Rattle.c25_meaning_debugger.specs.Debugger.{Steps, tried};
ghost use Rattle.c25_meaning_processor.specs.Set.{can_set, with_breakpoint};
ghost use Rattle.c25_meaning_processor.specs.WordStep.{WordStep};
ghost use Rattle.c25_prompt.specs.Parts.{IsPart};
ghost use Rattle.c25_prompt.specs.Point.{point_of};
ghost use Rattle.c25_prompt.specs.Prompt.{Runs, RunsTo, WentOn, WentTo, with_goal};
ghost use Rattle.c25_prompt.specs.Runs.{Goes, end_text};

use crate::ended::{Ended, push_ended};
use crate::going::{PromptBoard, go, run_freely};
use crate::stops::Stops;
use c25_debug::steps::{Answer, shown};
use c25_meaning_common::no_memory::NoMemory;
use std::alloc::Global;

/// How many of n steps are tried: never more than 4,294,967,295 in all.
fn tried(board: &PromptBoard, n: u32) -> u32
    ensures tried { result ≡ tried (steps board.now) n }
    ensures room { steps board.now + result < 2 ^ 32 }
{
    n.min(u32::MAX - board.steps())
}

/// The line that says how a run ended.
pub(crate) fn ended_line(
    alloc: Global,
    board: &PromptBoard,
    ended: &Ended,
) -> Result<Answer, NoMemory>
    ensures { IfOk result (λ answer. string_bytes answer.text ≡ end_text ended.now (steps board.now) (state board.now).registers.pc) }
{
    let mut text = String::new(alloc);
    push_ended(&mut text, ended, board.steps(), board.pc())?;
    Ok(shown(text))
}

/// The answer to `step`: at most n steps, whatever breakpoints and watches there are.
pub(crate) fn answer_step(
    alloc: Global,
    board: &mut PromptBoard,
    n: u32,
) -> Result<Answer, NoMemory>
    ensures answer { IfOk result (λ answer. (breaks : List ℕ) → Steps WordStep (signals board.old) [] n (told.point_of board.old breaks) (string_bytes answer.text) (told.point_of board.new breaks)) }
    ensures schedule { entries board.new ≡ entries board.old }
{
    let n = tried(board, n);
    let ended = run_freely(board, n)?;
    ended_line(alloc, board, &ended)
}

/// At most n steps, none after a stop.
fn go_within(
    alloc: Global,
    board: &mut PromptBoard,
    n: u32,
    stops: &Stops,
) -> Result<Ended, NoMemory>
    ensures run { IfOk result (λ ended. Goes WordStep (signals board.old) stops.now.breakpoints stops.now.watches (steps board.old)
        (tried (steps board.old) n) (state board.old) ended (steps board.new) (state board.new)) }
    ensures schedule { entries board.new ≡ entries board.old }
{
    let n = tried(board, n);
    go(
        alloc,
        board,
        n,
        &stops.breakpoints,
        stops.watches.as_slice(),
    )
}

/// At most n steps, none after a stop, with one more breakpoint, which is not kept.
fn go_with(
    alloc: Global,
    board: &mut PromptBoard,
    address: u16,
    n: u32,
    stops: &mut Stops,
) -> Result<Ended, NoMemory>
    ensures run { IfOk result (λ ended. Goes WordStep (signals board.old) (with_breakpoint stops.old.breakpoints address) stops.old.watches (steps board.old)
        (tried (steps board.old) n) (state board.old) ended (steps board.new) (state board.new)) }
    ensures schedule { entries board.new ≡ entries board.old }
    ensures breakpoints { OnOk result (stops.new.breakpoints ≡ stops.old.breakpoints) }
    ensures once { stops.new.once ≡ stops.old.once }
    ensures watches { stops.new.watches ≡ stops.old.watches }
    ensures ignored { stops.new.ignored ≡ stops.old.ignored }
{
    let was_set = stops.breakpoints.contains(address);
    stops.breakpoints.set(address);
    let ended = go_within(alloc, board, n, stops)?;
    stops.restore(address, was_set);
    Ok(ended)
}

/// At most n steps, none after a stop, of a run that is to end at an address, or at none.
fn go_towards(
    alloc: Global,
    board: &mut PromptBoard,
    goal: Option<u16>,
    n: u32,
    stops: &mut Stops,
) -> Result<Ended, NoMemory>
    ensures run { IfOk result (λ ended. Goes WordStep (signals board.old) (with_goal stops.old.breakpoints goal) stops.old.watches (steps board.old)
        (tried (steps board.old) n) (state board.old) ended (steps board.new) (state board.new)) }
    ensures schedule { entries board.new ≡ entries board.old }
    ensures breakpoints { OnOk result (stops.new.breakpoints ≡ stops.old.breakpoints) }
    ensures once { stops.new.once ≡ stops.old.once }
    ensures watches { stops.new.watches ≡ stops.old.watches }
    ensures ignored { stops.new.ignored ≡ stops.old.ignored }
{
    match goal {
        None => go_within(alloc, board, n, stops),
        Some(address) => go_with(alloc, board, address, n, stops),
    }
}

/// How a part of a run ended, and whether the run ends with it.
#[derive(Clone, Copy)]
pub(crate) struct Part {
    pub ended: Ended,
    pub is_last: bool,
}

/// The next part of a run that is to end at an address, or at none: at most n steps, none after a stop.
fn run_part(
    alloc: Global,
    board: &mut PromptBoard,
    goal: Option<u16>,
    n: u32,
    stops: &mut Stops,
) -> Result<Part, NoMemory>
    ensures part { IfOk result (λ part. IsPart (signals board.old) goal n (point_of board.old stops.old) part (point_of board.new stops.new)) }
    ensures schedule { entries board.new ≡ entries board.old }
{
    let ended = go_towards(alloc, board, goal, n, stops)?;
    let pc = board.pc();
    let is_last = stops.ends_run(&ended, goal, pc);
    stops.settle(&ended, pc)?;
    Ok(Part { ended, is_last })
}

/// How many of the steps are left after a part that led from one number of steps done to another.
fn steps_left(left: u32, before: u32, after: u32) -> u32
    ensures { result ≡ left - (after - before) }
{
    left.saturating_sub(after.saturating_sub(before))
}

/// At most n steps of a run that is to end at an address, or at none: part after part, until one ends it.
pub(crate) fn run(
    alloc: Global,
    board: &mut PromptBoard,
    goal: Option<u16>,
    n: u32,
    stops: &mut Stops,
) -> Result<Ended, NoMemory>
    ensures run { IfOk result (λ ended. WentOn WordStep (signals board.old) goal n (point_of board.old stops.old) ended (point_of board.new stops.new)) }
    ensures schedule { entries board.new ≡ entries board.old }
{
    let mut left = n;
    for _turn in 0..n {
        let before = board.steps();
        let part = run_part(alloc, board, goal, left, stops)?;
        if part.is_last {
            return Ok(part.ended);
        }
        left = steps_left(left, before, board.steps());
    }
    Ok(Ended::Ran)
}

/// At most n steps with one more breakpoint, which is not kept. Where as many as may be are set, none is
/// done.
pub(crate) fn run_to(
    alloc: Global,
    board: &mut PromptBoard,
    address: u16,
    n: u32,
    stops: &mut Stops,
) -> Result<Ended, NoMemory>
    ensures run { IfOk result (λ ended. WentTo WordStep (signals board.old) (can_set stops.old.breakpoints address) address n (point_of board.old stops.old) ended (point_of board.new stops.new)) }
    ensures schedule { entries board.new ≡ entries board.old }
{
    if !stops.can_set(address) {
        return Ok(Ended::Full);
    }
    run(alloc, board, Some(address), n, stops)
}

/// The answer to `run`.
pub(crate) fn answer_run(
    alloc: Global,
    board: &mut PromptBoard,
    n: u32,
    stops: &mut Stops,
) -> Result<Answer, NoMemory>
    ensures answer { IfOk result (λ answer. Runs WordStep (signals board.old) n (point_of board.old stops.old) (string_bytes answer.text) (point_of board.new stops.new)) }
    ensures schedule { entries board.new ≡ entries board.old }
{
    let ended = run(alloc, board, None, n, stops)?;
    ended_line(alloc, board, &ended)
}

/// The answer to a run with one more breakpoint, which is not kept.
pub(crate) fn answer_until(
    alloc: Global,
    board: &mut PromptBoard,
    address: u16,
    n: u32,
    stops: &mut Stops,
) -> Result<Answer, NoMemory>
    ensures answer { IfOk result (λ answer. RunsTo WordStep (signals board.old) address n (point_of board.old stops.old) (string_bytes answer.text) (point_of board.new stops.new)) }
    ensures schedule { entries board.new ≡ entries board.old }
{
    let ended = run_to(alloc, board, address, n, stops)?;
    ended_line(alloc, board, &ended)
}
