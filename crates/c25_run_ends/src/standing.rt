//! Where a run stands before a step.

ghost use Rattle.std.specs.Prelude.{◌≡◌, ◌+◌, ◌<◌, ◌^◌, suc, IfOk, string_bytes};
ghost use Rattle.std.specs.Option.{option_map};
ghost use Rattle.c25_board.specs.Board.{entries, signals, state, steps};
ghost use Rattle.c25_run_ends.specs.Standing.{StandsAt};
ghost use Rattle.c25_run_ends.specs.Stepping.{Arrives};
ghost use Rattle.c25_unused_inputs.specs.Watched.{KnowAll};

use crate::pieces::before_text;
use c25_debug::shown::show_place;
use c25_link::Image;
use c25_meaning_common::no_memory::NoMemory;
use c25_unused_inputs::requests::Requests;
use c25_unused_inputs::stepping::{RunBoard, watched};
use std::alloc::Global;

/// Lines, with what is known of the interrupt lines.
#[derive(Drop)]
pub(crate) struct Known {
    pub(crate) text: String,
    pub(crate) requests: Requests,
}

/// The line of the instruction at which a board stands.
pub(crate) fn place_text(alloc: Global, image: &Image, board: &RunBoard) -> Result<String, NoMemory>
    ensures { IfOk result (λ place. StandsAt image.now (state board.now) (string_bytes place)) }
{
    let answer = show_place(alloc, image, board)?;
    Ok(answer.text)
}

/// Does n steps of a new board and then one more, and answers the lines of the instruction at which the run
/// stood before that one; `None` where a step stops.
fn told_step(
    alloc: Global,
    image: &Image,
    board: &mut RunBoard,
    requests: Requests,
    n: u32,
) -> Result<Option<Known>, NoMemory>
    requires first { steps board.old ≡ 0 }
    requires room { n + 1 < 2 ^ 32 }
    ensures arrives { KnowAll (signals board.old) 0 (state board.old) requests
        → IfOk result (λ known. Arrives (signals board.old) image.now (state board.old) (suc n) (steps board.new) (state board.new) requests (option_map (λ k. (string_bytes k.text, k.requests)) known)) }
    ensures schedule { entries board.new ≡ entries board.old }
{
    let after = watched(board, requests, n)?;
    let Some(requests) = after else {
        return Ok(None);
    };
    let place = place_text(alloc, image, board)?;
    let last = watched(board, requests, 1)?;
    let Some(requests) = last else {
        return Ok(None);
    };
    let text = before_text(alloc, place.as_str())?;
    Ok(Some(Known { text, requests }))
}

/// Does the steps of a new board before this one, and answers the lines of the instruction at which the run stood
/// one step before, none for step 0; `None` where a step stops.
pub(crate) fn told_before(
    alloc: Global,
    image: &Image,
    board: &mut RunBoard,
    requests: Requests,
    step: u32,
) -> Result<Option<Known>, NoMemory>
    requires { steps board.old ≡ 0 }
    ensures arrives { KnowAll (signals board.old) 0 (state board.old) requests
        → IfOk result (λ known. Arrives (signals board.old) image.now (state board.old) step (steps board.new) (state board.new) requests (option_map (λ k. (string_bytes k.text, k.requests)) known)) }
    ensures schedule { entries board.new ≡ entries board.old }
{
    if step == 0 {
        let text = String::new(alloc);
        return Ok(Some(Known { text, requests }));
    }
    told_step(alloc, image, board, requests, step - 1)
}
