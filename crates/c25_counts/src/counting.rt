//! Steps of a board, counted by the addresses of the instructions that act.

ghost use Rattle.std.specs.Prelude.{◌≡◌, ◌+◌, ◌<◌, ◌≤◌, ◌^◌, ℕ, List, None, false};
ghost use Rattle.c25_board.specs.Board.{entries, signals, state, steps};
ghost use Rattle.c25_counts.specs.Counting.{AreEnds, CountsSteps, count_in};
ghost use Rattle.c25_counts.specs.Seen.{AreCounts, CountsOn, is_over};
ghost use Rattle.c25_meaning_processor.specs.State.{State};

use crate::counts::Counts;
use c25_board::board::Board;
use c25_board::ports::ListSink;
use c25_board::run_to::Halted;
use c25_board::samples::Samples;
use c25_count_laws::laws::counts_are_of_runs;

/// A board that keeps all of its outputs.
pub type RunBoard = Board<Samples, ListSink>;

/// Whether no more is to do after this answer.
fn is_over(halted: Halted) -> bool
    ensures { result ≡ is_over halted }
{
    match halted {
        Halted::Met => false,
        Halted::Ran | Halted::Left(..) | Halted::SinkFault(_) => true,
    }
}

/// Does some of the next steps of a board, at most so many, or those up to the one that halts, and counts them.
/// `Halted::Met` says that there may be more to do.
fn count_some(board: &mut RunBoard, most: u32, counts: &mut Counts) -> Halted
    requires room { steps board.old + most < 2 ^ 32 }
    requires settled { counts.old.last ≡ None }
    ensures counted { (s : State) (branches : List ℕ)
        → AreCounts (signals board.old) (steps board.old) s branches counts.old (state board.old)
        → CountsOn (signals board.old) (steps board.old) most s branches result (steps board.new) (state board.new)
        counts.new board.old.devices.sink.failures board.new.devices.sink.failures }
    ensures within { steps board.new ≤ steps board.old + most }
    ensures more { is_over result ≡ false → steps board.old < steps board.new }
    ensures settled { counts.new.last ≡ None }
    ensures schedule { entries board.new ≡ entries board.old }
{
    let halted = board.run_observed(most, counts);
    let at = board.pc();
    counts.settle(at);
    halted
}

/// Does n steps of a board, or those up to the one that halts, from its first step on, and counts the
/// instructions that act in them, and the branches among those of `counts` that pass. None acts while `IDLE`
/// waits.
pub fn count_steps(board: &mut RunBoard, n: u32, counts: &mut Counts)
    requires first { steps board.old ≡ 0 }
    requires acts { (address : ℕ) → count_in counts.old.acts.items address ≡ 0 }
    requires passes { (address : ℕ) → count_in counts.old.passes.items address ≡ 0 }
    requires settled { counts.old.last ≡ None }
    ensures counted { (branches : List ℕ) → AreEnds branches counts.old.ends.items
        → board.new.devices.sink.failures ≡ 0
        → CountsSteps (signals board.old) n (state board.old) branches counts.new.acts.items counts.new.passes.items }
    ensures schedule { entries board.new ≡ entries board.old }
{
    counts_are_of_runs();
    let mut done = 0;
    while done < n {
        let halted = count_some(board, n - done, counts);
        if is_over(halted) {
            return;
        }
        done = board.steps();
    }
}
