//! The steps that a command asks for, and their answer.

ghost use Rattle.std.specs.Prelude.{◌≡◌, ◌≤◌, ◌+◌, ◌++◌, ℕ, List, false, IfOk, IsOk, OnErr, string_bytes, string_len};
ghost use Rattle.c25_board.specs.Board.{entries, signals};
ghost use Rattle.std.specs.String.{string_capacity};
ghost use Rattle.c25_debug.specs.Told.{StepsTold, end_text, is_sunk, point_of};

use crate::answers::{MOST_BYTES, push_halted};
use c25_board::board::Board;
use c25_board::breakpoints::Breakpoints;
use c25_board::ports::{Feed, Sink};
use c25_board::run_to::Halted;
use c25_meaning_common::no_memory::NoMemory;
use std::alloc::Global;

/// The answer to a command, and whether it says that the sink refused a word.
#[derive(Drop)]
pub struct Answer {
    pub text: String,
    pub is_refused: bool,
}

/// The answer of a text that does not say that the sink refused a word.
pub fn shown(text: String) -> Answer
    ensures text { string_bytes result.text ≡ string_bytes text }
    ensures refused { result.is_refused ≡ false }
{
    Answer {
        text,
        is_refused: false,
    }
}

/// Whether the sink refused a word.
fn is_refusal(halted: Halted) -> bool
    ensures { result ≡ is_sunk halted }
{
    matches!(halted, Halted::SinkFault(_))
}

/// The answer to steps that ended in this way, with the number of steps done in all and PC, whose line is
/// appended to `text`.
fn answer_halted(mut text: String, halted: Halted, steps: u32, pc: u16) -> Result<Answer, NoMemory>
    ensures text { IfOk result (λ answer. string_bytes answer.text ≡ string_bytes text ++ end_text halted steps pc) }
    ensures refused { IfOk result (λ answer. answer.is_refused ≡ is_sunk halted) }
    ensures succeeds { string_len text + MOST_BYTES ≤ string_capacity text → IsOk result }
{
    push_halted(&mut text, halted, steps, pc)?;
    Ok(Answer {
        text,
        is_refused: is_refusal(halted),
    })
}

/// Does at most `count` steps of a board, none after one of these breakpoints is met and none after the last
/// that can be counted, and answers how they ended. The answer's memory is taken before the first step: out
/// of memory, no step is done.
pub(crate) fn answer_steps<F: Feed + Drop, S: Sink + Drop>(
    alloc: Global,
    board: &mut Board<F, S>,
    count: u32,
    breakpoints: &Breakpoints,
) -> Result<Answer, NoMemory>
    ensures answer { IfOk result (λ answer. (kept : List ℕ) → StepsTold (signals board.old) breakpoints.now count
        (point_of board.old kept) (string_bytes answer.text) (point_of board.new kept)
        answer.is_refused (S.failures board.old.devices.sink) (S.failures board.new.devices.sink)) }
    ensures kept { OnErr result (board.new ≡ board.old) }
    ensures schedule { entries board.new ≡ entries board.old }
{
    let text = String::with_capacity(alloc, MOST_BYTES)?;
    let tried = count.min(u32::MAX - board.steps());
    let halted = board.run_to(tried, breakpoints);
    answer_halted(text, halted, board.steps(), board.pc())
}
