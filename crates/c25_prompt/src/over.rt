//! `next`: steps over calls.

ghost use Rattle.std.specs.Prelude.{◌≡◌, IfOk, string_bytes};
ghost use Rattle.c25_board.specs.Board.{entries, signals, state};
ghost use Rattle.c25_meaning_processor.specs.WordStep.{WordStep};
ghost use Rattle.c25_prompt.specs.Over.{IsNext};
ghost use Rattle.c25_prompt.specs.Point.{point_of};
ghost use Rattle.c25_prompt.specs.Prompt.{Nexts, StandsAtPc, WentOver, goes_on, only_next, returns_to};

use crate::ended::Ended;
use crate::going::PromptBoard;
use crate::running::{ended_line, run, run_to};
use crate::stops::Stops;
use c25_debug::steps::Answer;
use c25_isa::decode;
use c25_meaning_common::no_memory::NoMemory;
use c25_meaning_instructions::insn::Insn;
use c25_meaning_instructions::mnemonic::{JumpName, PlainName};
use std::alloc::Global;

/// The instruction that the words at PC read as.
fn insn_at_pc(board: &PromptBoard) -> Option<Insn>
    ensures { StandsAtPc (state board.now) result }
{
    let pc = board.pc();
    decode(board.prog_at(pc), board.prog_at(pc.wrapping_add(1)))
}

/// Where the call that an instruction at `pc` makes returns to, if it is a CALL or a CALA.
fn returns_to(insn: &Option<Insn>, pc: u16) -> Option<u16>
    ensures { result ≡ returns_to insn.now pc }
{
    match insn {
        Some(Insn::Jump(JumpName::Call, _, _, _)) => Some(pc.wrapping_add(2)),
        Some(Insn::Plain(PlainName::Cala, _)) => Some(pc.wrapping_add(1)),
        _ => None,
    }
}

/// One step, or a run to where a call returns to.
fn step_over(
    alloc: Global,
    board: &mut PromptBoard,
    returns: Option<u16>,
    stops: &mut Stops,
) -> Result<Ended, NoMemory>
    ensures run { IfOk result (λ ended. WentOver WordStep (signals board.old) returns (point_of board.old stops.old) ended (point_of board.new stops.new)) }
    ensures schedule { entries board.new ≡ entries board.old }
{
    match returns {
        None => run(alloc, board, None, 1, stops),
        Some(address) => run_to(alloc, board, address, u32::MAX, stops),
    }
}

/// The address at which `next` alone stops: that where a call returns to, unless a breakpoint is set there of which
/// no meeting is left to pass.
fn only_next(stops: &Stops, returns: Option<u16>) -> Option<u16>
    ensures { result ≡ only_next stops.now.breakpoints stops.now.ignored returns }
{
    match returns {
        None => None,
        Some(address) => {
            if stops.breakpoints.contains(address) && stops.is_due(address) {
                None
            } else {
                Some(address)
            }
        }
    }
}

/// Whether `next` goes on after a step that ended so.
fn goes_on(ended: &Ended, only: Option<u16>, pc: u16) -> bool
    ensures { result ≡ goes_on ended.now only pc }
{
    match ended {
        Ended::Ran => true,
        Ended::Met => match only {
            None => false,
            Some(address) => address == pc,
        },
        Ended::Left(_) => false,
        Ended::Changed { .. } => false,
        Ended::Full => false,
    }
}

/// How one of the steps of `next` ended, and whether `next` goes on after it.
#[derive(Clone, Copy)]
pub(crate) struct Step {
    pub ended: Ended,
    pub goes_on: bool,
}

/// One of the steps of `next`.
fn next_one(alloc: Global, board: &mut PromptBoard, stops: &mut Stops) -> Result<Step, NoMemory>
    ensures step { IfOk result (λ step. IsNext (signals board.old) (point_of board.old stops.old) step (point_of board.new stops.new)) }
    ensures schedule { entries board.new ≡ entries board.old }
{
    let insn = insn_at_pc(board);
    let returns = returns_to(&insn, board.pc());
    let only = only_next(stops, returns);
    let ended = step_over(alloc, board, returns, stops)?;
    let goes_on = goes_on(&ended, only, board.pc());
    Ok(Step { ended, goes_on })
}

/// The answer to `next`: n steps, each over the whole of a routine that it calls, and none after one that
/// stops, meets a breakpoint that is set or changes a watched word.
pub(crate) fn answer_next(
    alloc: Global,
    board: &mut PromptBoard,
    n: u32,
    stops: &mut Stops,
) -> Result<Answer, NoMemory>
    ensures answer { IfOk result (λ answer. Nexts WordStep (signals board.old) n (point_of board.old stops.old) (string_bytes answer.text) (point_of board.new stops.new)) }
    ensures schedule { entries board.new ≡ entries board.old }
{
    for _done in 0..n {
        let step = next_one(alloc, board, stops)?;
        if !step.goes_on {
            return ended_line(alloc, board, &step.ended);
        }
    }
    ended_line(alloc, board, &Ended::Ran)
}
