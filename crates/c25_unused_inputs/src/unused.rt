//! The lines of what a run did not use of its inputs.

ghost use Rattle.std.specs.Prelude.{◌≡◌, ◌++◌, IfOk, Some, false, string_bytes};
ghost use Rattle.c25_board.specs.Board.{state, steps};
ghost use Rattle.c25_unused_inputs.specs.Ports as ports;
ghost use Rattle.c25_unused_inputs.specs.Unused as meant;

use crate::pieces::{reason_text, request_name, unreached_text};
use crate::ports::{counts_of, unread_lines};
use crate::requests::{InterruptLine, Request, Requests};
use crate::stepping::RunBoard;
use crate::watching::{intm, is_unmasked};
use c25_meaning_common::no_memory::NoMemory;
use c25_texts::appending::push_texts;
use std::alloc::Global;

/// The lines of an interrupt that was not taken.
fn waiting_text(
    alloc: Global,
    board: &RunBoard,
    line: InterruptLine,
    step: u32,
) -> Result<String, NoMemory>
    ensures { IfOk result (λ text. string_bytes text ≡ meant.waiting_lines line (Some step) false (state board.now)) }
{
    let unmasked = is_unmasked(board, line);
    let mut text = request_name(alloc, line.number(), step)?;
    let reason = reason_text(alloc, line.number(), line.bit(), unmasked, intm(board))?;
    text.push_str(reason.as_str())?;
    Ok(text)
}

/// The lines of the last interrupt of a line, unless an interrupt of it was enabled since.
fn waiting_lines(alloc: Global, board: &RunBoard, request: &Request) -> Result<String, NoMemory>
    ensures { IfOk result (λ text. string_bytes text ≡ meant.waiting_lines request.now.line request.now.last request.now.enabled (state board.now)) }
{
    match request.last {
        None => Ok(String::new(alloc)),
        Some(step) => {
            if request.enabled {
                return Ok(String::new(alloc));
            }
            waiting_text(alloc, board, request.line, step)
        }
    }
}

/// The line of the first interrupt of a line after a run of so many steps.
fn unreached_line(alloc: Global, request: &Request, steps: u32) -> Result<String, NoMemory>
    ensures { IfOk result (λ text. string_bytes text ≡ meant.unreached_line request.now.line request.now.next steps) }
{
    match request.next {
        None => Ok(String::new(alloc)),
        Some(step) => {
            let mut text = request_name(alloc, request.line.number(), step)?;
            let end = unreached_text(alloc, steps)?;
            text.push_str(end.as_str())?;
            Ok(text)
        }
    }
}

/// The lines of one interrupt line.
fn request_lines(alloc: Global, board: &RunBoard, request: &Request) -> Result<String, NoMemory>
    ensures { IfOk result (λ text. string_bytes text ≡ meant.request_lines (steps board.now) (state board.now) request.now) }
{
    let mut text = waiting_lines(alloc, board, request)?;
    let end = unreached_line(alloc, request, board.steps())?;
    text.push_str(end.as_str())?;
    Ok(text)
}

/// The lines of the three interrupt lines.
fn requests_lines(alloc: Global, board: &RunBoard, requests: &Requests) -> Result<String, NoMemory>
    ensures { IfOk result (λ text. string_bytes text ≡ meant.requests_lines (steps board.now) (state board.now) requests.now) }
{
    let mut text = request_lines(alloc, board, &requests.int0)?;
    let int1 = request_lines(alloc, board, &requests.int1)?;
    let int2 = request_lines(alloc, board, &requests.int2)?;
    push_texts(&mut text, &[int1.as_str(), int2.as_str()])?;
    Ok(text)
}

/// The lines of what a run did not use, at its end: for each port whose samples were not all read how many those are, of
/// so many that it had, and for each interrupt line its last interrupt that was not taken and its first after the run.
/// The samples left are taken from the board.
pub fn unused_text(
    alloc: Global,
    had: &[u64],
    board: &mut RunBoard,
    requests: &Requests,
) -> Result<String, NoMemory>
    ensures { IfOk result (λ text. string_bytes text ≡ ports.unread_lines had.now (ports.counts_of (state board.old).world.samples)
        ++ meant.requests_lines (steps board.old) (state board.old) requests.now) }
{
    let lines = requests_lines(alloc, board, requests)?;
    let left = counts_of(alloc, board.feed_mut())?;
    let mut text = unread_lines(alloc, had, left.as_slice())?;
    text.push_str(lines.as_str())?;
    Ok(text)
}
