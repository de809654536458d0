//! The note of the end of a run.

ghost use Rattle.std.specs.Prelude.{◌≡◌, IfOk, string_bytes, true};
ghost use Rattle.std.specs.Option.{option_map};
ghost use Rattle.c25_board.specs.Board.{entries, signals, state, steps};
ghost use Rattle.c25_chain.specs.Chain.{Given};
ghost use Rattle.c25_chain.specs.Ready.{IsReady};
ghost use Rattle.c25_chain.specs.Headline.{first_state};
ghost use Rattle.c25_meaning_processor.specs.Samples.{samples_at};
ghost use Rattle.c25_run_ends.specs.EndNote.{Explains, ExplainsEnd, HasNoInputs, IsStopTold};
ghost use Rattle.c25_run_ends.specs.Stepping.{Comes, Ends};
ghost use Rattle.c25_unused_inputs.specs.Ports.{counts_of};
ghost use Rattle.c25_unused_inputs.specs.Requests.{requests_of};
ghost use Rattle.c25_unused_inputs.specs.Watched.{KnowAll};

use crate::cause::cause_of;
use crate::pieces::{end_text, example_text};
use crate::standing::{Known, place_text, told_before};
use c25_board::samples::{Samples, read_samples};
use c25_chain::board_of;
use c25_chain::ready::Ready;
use c25_link::Image;
use c25_meaning_common::failure::Failure;
use c25_meaning_common::no_memory::NoMemory;
use c25_meaning_processor::stop::Stop;
use c25_texts::appending::push_texts;
use c25_unused_inputs::ports::counts_of;
use c25_unused_inputs::requests::{Requests, RunEnd, requests_of};
use c25_unused_inputs::stepping::{RunBoard, watched};
use c25_unused_inputs::unused_text;
use std::alloc::Global;

/// How a run ended, and what its schedule has for the interrupt lines.
#[derive(Clone, Copy)]
struct Ended {
    end: RunEnd,
    requests: Requests,
}

/// The lines of a board whose next step stops.
fn told_stop(
    alloc: Global,
    image: &Image,
    board: &RunBoard,
    had: &[u64],
    stop: Stop,
) -> Result<String, NoMemory>
    ensures { IfOk result (λ text. IsStopTold image.now had.now (state board.now) stop (string_bytes text)) }
{
    let place = place_text(alloc, image, board)?;
    let mut text = end_text(alloc, place.as_str())?;
    let cause = cause_of(alloc, image, board, had, stop)?;
    let example = example_text(alloc, stop)?;
    push_texts(&mut text, &[cause.as_str(), example.as_str()])?;
    Ok(text)
}

/// Does all steps of a run by a new board, and answers no lines; `None` where one stops.
fn done(
    alloc: Global,
    board: &mut RunBoard,
    requests: Requests,
    n: u32,
) -> Result<Option<Known>, NoMemory>
    requires { steps board.old ≡ 0 }
    ensures comes { KnowAll (signals board.old) 0 (state board.old) requests
        → IfOk result (λ known. Comes (signals board.old) n (state board.old) (steps board.new) (state board.new) requests (option_map (λ k. (string_bytes k.text, k.requests)) known)) }
    ensures schedule { entries board.new ≡ entries board.old }
{
    match watched(board, requests, n)? {
        Some(requests) => {
            let text = String::new(alloc);
            Ok(Some(Known { text, requests }))
        }
        None => Ok(None),
    }
}

/// Does the steps of a run by a new board, and answers why it stopped then, if it did; `None` where a step before
/// stops.
fn told_end(
    alloc: Global,
    image: &Image,
    board: &mut RunBoard,
    had: &[u64],
    ended: Ended,
) -> Result<Option<Known>, NoMemory>
    requires { steps board.old ≡ 0 }
    ensures ends { KnowAll (signals board.old) 0 (state board.old) ended.requests
        → IfOk result (λ known. Ends (signals board.old) image.now had.now (state board.old) ended.end (steps board.new) (state board.new) ended.requests (option_map (λ k. (string_bytes k.text, k.requests)) known)) }
    ensures schedule { entries board.new ≡ entries board.old }
{
    let Some(stop) = ended.end.stop else {
        return done(alloc, board, ended.requests, ended.end.steps);
    };
    let Some(mut known) = told_before(alloc, image, board, ended.requests, ended.end.steps)? else {
        return Ok(None);
    };
    let lines = told_stop(alloc, image, board, had, stop)?;
    known.text.push_str(lines.as_str())?;
    Ok(Some(known))
}

/// The note of a run's end, by a new board of the run; an empty text where a step before the end stops.
fn told_run(
    alloc: Global,
    image: &Image,
    board: &mut RunBoard,
    had: &[u64],
    ended: Ended,
) -> Result<String, NoMemory>
    requires new { steps board.old ≡ 0 }
    requires requests { ended.requests ≡ requests_of (entries board.old) ended.end }
    ensures { IfOk result (λ note. Explains image.now had.now (entries board.old) (state board.old) ended.end (string_bytes note)) }
{
    let Some(known) = told_end(alloc, image, board, had, ended)? else {
        return Ok(String::new(alloc));
    };
    let Known { mut text, requests } = known;
    let rest = unused_text(alloc, had, board, &requests)?;
    text.push_str(rest.as_str())?;
    Ok(text)
}

/// Whether all steps of a run were done, and it had no inputs that it could leave.
fn has_no_inputs(ready: &Ready, samples: &str, end: RunEnd) -> bool
    ensures { result ≡ true → HasNoInputs ready.now samples.now end }
{
    if end.stop.is_some() {
        return false;
    }
    if !samples.is_empty() {
        return false;
    }
    ready.schedule.as_slice().is_empty()
}

/// The note of a program's run with these samples.
fn told_ready(
    alloc: Global,
    ready: Ready,
    mut all: Samples,
    end: RunEnd,
) -> Result<String, NoMemory>
    ensures { IfOk result (λ note. (given : Given) → IsReady given ready
        → Explains ready.built.linked.image (counts_of (samples_at all)) ready.schedule (first_state ready.built.linked.image ready.samples) end (string_bytes note)) }
{
    let Ready {
        built,
        samples,
        schedule,
    } = ready;
    let had = counts_of(alloc, &mut all)?;
    let requests = requests_of(schedule.as_slice(), end);
    let mut board = board_of(alloc, &built.linked, samples, schedule)?;
    let ended = Ended { end, requests };
    told_run(
        alloc,
        &built.linked.image,
        &mut board,
        had.as_slice(),
        ended,
    )
}

/// Runs a program again up to the end of its run, and says what there is to say of it. Where a step stopped: the
/// instruction at which the run stood one step before, the one at which it stands then, and what is there. Then the
/// samples that were not read, and the interrupts of the schedule that were not taken, since none of their line was
/// enabled, or the run ended before. `samples` is the text of the program's samples. The answer is an empty text where
/// the run stops before that step, or the samples have a fault, and where all steps were done without samples and
/// schedule: then nothing is run.
pub fn end_note(alloc: Global, ready: Ready, samples: &str, end: RunEnd) -> Result<String, NoMemory>
    ensures { IfOk result (λ note. (given : Given) → IsReady given ready → ExplainsEnd ready samples.now end (string_bytes note)) }
{
    if has_no_inputs(&ready, samples, end) {
        return Ok(String::new(alloc));
    }
    match read_samples(alloc, samples) {
        Ok(all) => told_ready(alloc, ready, all, end),
        Err(Failure::NoMemory(error)) => Err(error),
        Err(Failure::Fault(_)) => Ok(String::new(alloc)),
    }
}
