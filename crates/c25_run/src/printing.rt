//! Steps of a board, whose outputs are printed as they go.

ghost use Rattle.std.specs.Prelude.{◌≡◌, ◌+◌, ◌<◌, ◌≤◌, ◌^◌, [], IfOk, OnErr, OnOk, false};
ghost use Rattle.c25_board.specs.Board.{entries, signals, state, steps};
ghost use Rattle.c25_run.specs.Printed.{BreaksOff, IsFresh, PrintsAll, PrintsFront, PrintsSome};

use crate::batch::{Batch, STEPS};
use crate::lines::{OutcomeLine, OutputLines, put_outcome, put_outputs};
use c25_board::board::{Board, Outcome};
use c25_board::samples::Samples;
use c25_report::printing::{Unwritten, print_bytes, print_text};
use c25_run_laws::outputs::{outputs_have_no_part_in_runs, steps_put_one_output_at_most};
use c25_run_laws::runs::two_runs_are_one;
use std::io::Write;

/// A board that keeps the outputs of one batch of steps.
pub(crate) type BatchBoard = Board<Samples, Batch>;

/// Runs one batch of steps of a board, or fewer where one stops, and prints their outputs.
fn print_some<O: Write>(
    board: &mut BatchBoard,
    lines: &mut OutputLines,
    n: u32,
    out: &mut O,
) -> Result<Outcome, Unwritten>
    requires fresh { IsFresh board.old.devices.sink }
    requires few { n ≤ 4096 }
    requires room { steps board.old + n < 2 ^ 32 }
    ensures ok { IfOk result (λ outcome. PrintsSome (signals board.old) (steps board.old) n (state board.old)
        outcome (steps board.new) (state board.new) (O.contents out.old) (O.contents out.new)) }
    ensures fresh { OnOk result (IsFresh board.new.devices.sink) }
    ensures err { OnErr result (BreaksOff (signals board.old) (steps board.old) n (state board.old)
        (O.contents out.old) (O.contents out.new)) }
    ensures schedule { entries board.new ≡ entries board.old }
{
    steps_put_one_output_at_most();
    let outcome = board.run(n);
    put_outputs(lines, board.sink().outputs());
    if let Err(unwritten) = print_bytes(lines.as_slice(), out) {
        return Err(unwritten);
    }
    board.sink_mut().clear();
    Ok(outcome)
}

/// Runs n steps of a board, or fewer where one stops, and prints their outputs as they go.
fn print_steps<O: Write>(
    board: &mut BatchBoard,
    lines: &mut OutputLines,
    n: u32,
    out: &mut O,
) -> Result<Outcome, Unwritten>
    requires fresh { IsFresh board.old.devices.sink }
    requires first { steps board.old ≡ 0 }
    ensures ok { IfOk result (λ outcome. PrintsSome (signals board.old) 0 n (state board.old)
        outcome (steps board.new) (state board.new) (O.contents out.old) (O.contents out.new)) }
    ensures fresh { OnOk result (IsFresh board.new.devices.sink) }
    ensures err { OnErr result (BreaksOff (signals board.old) 0 n (state board.old)
        (O.contents out.old) (O.contents out.new)) }
    ensures schedule { entries board.new ≡ entries board.old }
{
    outputs_have_no_part_in_runs();
    two_runs_are_one();
    let mut done = 0;
    while done < n {
        let some = STEPS.min(n - done);
        match print_some(board, lines, some, out) {
            Ok(Outcome::Ran) => done += some,
            Ok(Outcome::Left(at, stop)) => return Ok(Outcome::Left(at, stop)),
            Ok(Outcome::SinkFault(at)) => return Ok(Outcome::SinkFault(at)),
            Err(unwritten) => return Err(unwritten),
        }
    }
    Ok(Outcome::Ran)
}

/// Runs n steps of a new board, or fewer where one stops, prints their outputs as they go, and then the line
/// that says how the run ended.
pub(crate) fn print_board<O: Write>(
    board: &mut BatchBoard,
    n: u32,
    out: &mut O,
) -> Result<Outcome, Unwritten>
    requires fresh { IsFresh board.old.devices.sink }
    requires first { steps board.old ≡ 0 }
    ensures ok { IfOk result (λ outcome. PrintsAll false (signals board.old) n (state board.old)
        outcome (steps board.new) (state board.new) (O.contents out.old) (O.contents out.new)) }
    ensures err { OnErr result (PrintsFront false (signals board.old) n (state board.old)
        (O.contents out.old) (O.contents out.new)) }
    ensures schedule { entries board.new ≡ entries board.old }
{
    let mut lines = OutputLines::new();
    let outcome = match print_steps(board, &mut lines, n, out) {
        Ok(outcome) => outcome,
        Err(unwritten) => return Err(unwritten),
    };
    let mut line = OutcomeLine::new();
    put_outcome(&mut line, outcome, board.steps());
    match print_text(line.as_str(), out) {
        Ok(()) => Ok(outcome),
        Err(unwritten) => Err(unwritten),
    }
}
