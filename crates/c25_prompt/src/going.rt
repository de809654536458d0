//! Runs of a board at the prompt.

ghost use Rattle.std.specs.Prelude.{◌≡◌, ◌+◌, ◌<◌, ◌^◌, [], IfOk};
ghost use Rattle.c25_board.specs.Board.{entries, signals, state, steps};
ghost use Rattle.c25_meaning_processor.specs.WordStep.{WordStep};
ghost use Rattle.c25_prompt.specs.Runs.{Goes};
ghost use Rattle.c25_prompt.specs.Seen.{AreTaken, GoesUnwatched, IsTaken, addresses, ended_freely, ended_of, ended_watched, seen};

use crate::ended::Ended;
use crate::watched::{Watched, Watching, first_changed, seen};
use c25_board::board::{Board, Outcome};
use c25_board::breakpoints::Breakpoints;
use c25_board::ports::ListSink;
use c25_board::run_to::Halted;
use c25_board::samples::Samples;
use c25_meaning_common::no_memory::NoMemory;
use std::alloc::Global;

/// A board at the prompt, which keeps its outputs in a list.
pub type PromptBoard = Board<Samples, ListSink>;

/// How a run that watches nothing ended, of which no word was refused.
fn ended_of(halted: Halted) -> Ended
    requires { IsTaken halted }
    ensures { result ≡ ended_of halted }
{
    match halted {
        Halted::Ran => Ended::Ran,
        Halted::Met => Ended::Met,
        Halted::Left(_, stop) => Ended::Left(stop),
        Halted::SinkFault(_) => unreachable!(),
    }
}

/// How a run without breakpoints that watches nothing ended, of which no word was refused.
fn ended_freely(outcome: Outcome) -> Ended
    requires { AreTaken outcome }
    ensures { result ≡ ended_freely outcome }
{
    match outcome {
        Outcome::Ran => Ended::Ran,
        Outcome::Left(_, stop) => Ended::Left(stop),
        Outcome::SinkFault(_) => unreachable!(),
    }
}

/// The next n steps, or those up to the one that stops, the fast way.
pub(crate) fn run_freely(board: &mut PromptBoard, n: u32) -> Result<Ended, NoMemory>
    requires { steps board.old + n < 2 ^ 32 }
    ensures run { IfOk result (λ ended. GoesUnwatched (signals board.old) [] (steps board.old) n (state board.old) ended (steps board.new) (state board.new)) }
    ensures schedule { entries board.new ≡ entries board.old }
{
    let outcome = board.run(n);
    match board.sink().refused() {
        Some(refused) => Err(refused),
        None => Ok(ended_freely(outcome)),
    }
}

/// The next n steps, or those up to the one after which a breakpoint is met or that stops.
fn run_to(board: &mut PromptBoard, n: u32, breakpoints: &Breakpoints) -> Result<Ended, NoMemory>
    requires { steps board.old + n < 2 ^ 32 }
    ensures run { IfOk result (λ ended. GoesUnwatched (signals board.old) breakpoints.now (steps board.old) n (state board.old) ended (steps board.new) (state board.new)) }
    ensures schedule { entries board.new ≡ entries board.old }
{
    let halted = board.run_to(n, breakpoints);
    match board.sink().refused() {
        Some(refused) => Err(refused),
        None => Ok(ended_of(halted)),
    }
}

/// How a run ended, the last step of which may have changed a watched word.
fn ended_watched(board: &PromptBoard, watched: &[Watched], ended: Ended) -> Ended
    ensures { result ≡ ended_watched (state board.now).world.words watched.now ended }
{
    let memory = board.data();
    match first_changed(memory, watched) {
        None => ended,
        Some(Watched { address, old }) => Ended::Changed {
            address,
            old,
            new: memory[usize::from(address)],
        },
    }
}

/// The next n steps, or those up to the one after which a breakpoint is met or a watched word is another, or
/// that stops.
fn run_watched(
    board: &mut PromptBoard,
    n: u32,
    breakpoints: &Breakpoints,
    watched: &[Watched],
) -> Result<Ended, NoMemory>
    requires room { steps board.old + n < 2 ^ 32 }
    requires seen { watched.now ≡ seen (addresses watched.now) (state board.old).world.words }
    ensures run { IfOk result (λ ended. Goes WordStep (signals board.old) breakpoints.now (addresses watched.now) (steps board.old) n (state board.old) ended (steps board.new) (state board.new)) }
    ensures schedule { entries board.new ≡ entries board.old }
{
    let mut watching = Watching {
        breakpoints,
        watched,
    };
    let halted = board.run_observed(n, &mut watching);
    match board.sink().refused() {
        Some(refused) => Err(refused),
        None => Ok(ended_watched(board, watched, ended_of(halted))),
    }
}

/// The next n steps, or those up to the one after which a breakpoint is met or the word at a watched address
/// is another, or that stops: the fast way where there are neither breakpoints nor watches. `NoMemory` where
/// memory runs out for the watched words or for an output.
pub(crate) fn go(
    alloc: Global,
    board: &mut PromptBoard,
    n: u32,
    breakpoints: &Breakpoints,
    watches: &[u16],
) -> Result<Ended, NoMemory>
    requires { steps board.old + n < 2 ^ 32 }
    ensures run { IfOk result (λ ended. Goes WordStep (signals board.old) breakpoints.now watches.now (steps board.old) n (state board.old) ended (steps board.new) (state board.new)) }
    ensures schedule { entries board.new ≡ entries board.old }
{
    if !watches.is_empty() {
        let watched = seen(alloc, board.data(), watches)?;
        return run_watched(board, n, breakpoints, &watched);
    }
    if breakpoints.as_slice().is_empty() {
        return run_freely(board, n);
    }
    run_to(board, n, breakpoints)
}
