//! Which interrupts are enabled before a step of a board.

ghost use Rattle.std.specs.Prelude.{◌≡◌};
ghost use Rattle.c25_board.specs.Board.{state, steps};
ghost use Rattle.c25_unused_inputs.specs.Requests.{bit_of};
ghost use Rattle.c25_unused_inputs.specs.Watched as meant;

use crate::requests::{InterruptLine, Request, Requests};
use crate::stepping::RunBoard;

/// Whether the bit of a line is set in IMR.
#[tactic(auto, using(crate::proofs::Off::mask_read))]
pub(crate) fn is_unmasked(board: &RunBoard, line: InterruptLine) -> bool
    ensures { result ≡ meant.is_unmasked (bit_of line) (state board.now) }
{
    let bit = line.bit();
    board.data_at(4) & bit == bit
}

/// INTM, bit 9 of ST0.
pub(crate) fn intm(board: &RunBoard) -> bool
    ensures { result ≡ meant.intm (state board.now) }
{
    (board.regs().st0 >> 9) % 2 == 1
}

/// Whether an interrupt of a line is enabled.
fn is_enabled(board: &RunBoard, line: InterruptLine) -> bool
    ensures { result ≡ meant.is_enabled (bit_of line) (state board.now) }
{
    is_unmasked(board, line) && !intm(board)
}

/// Whether a line was enabled since its last step, once it is known whether it is before step n.
fn enabled_after(last: Option<u32>, n: u32, was: bool, on: bool) -> bool
    ensures { result ≡ meant.enabled_after last n was on }
{
    match last {
        None => was,
        Some(from) => { if from <= n { was || on } else { was } }
    }
}

/// What is known of a line once a board was looked at.
fn looked(board: &RunBoard, request: Request) -> Request
    ensures { result ≡ meant.looked (steps board.now) (state board.now) request }
{
    let on = is_enabled(board, request.line);
    Request {
        line: request.line,
        last: request.last,
        next: request.next,
        enabled: enabled_after(request.last, board.steps(), request.enabled, on),
    }
}

/// What is known of the three lines once a board was looked at.
pub(crate) fn look(board: &RunBoard, requests: Requests) -> Requests
    ensures { result ≡ meant.all_looked (steps board.now) (state board.now) requests }
{
    Requests {
        int0: looked(board, requests.int0),
        int1: looked(board, requests.int1),
        int2: looked(board, requests.int2),
    }
}
