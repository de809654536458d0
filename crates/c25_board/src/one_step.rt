//! Runs of one step, for callers that look at the board after each step.

ghost use Rattle.std.specs.Prelude.{◌≡◌, ◌+◌, ◌<◌, ◌^◌};

use crate::board::{Board, Outcome};
use crate::breakpoints::Breakpoints;
use crate::ports::{Feed, Sink};
use crate::run_to::Halted;
use c25_core::Halt;

impl<F: Feed + Drop, S: Sink + Drop> Board<F, S> {
    ghost use Rattle.c25_board.specs.Board.{entries, signals, state, steps};
    ghost use Rattle.c25_board.specs.Run.{IsRun};
    ghost use Rattle.c25_board.specs.RunTo.{IsRunTo};

    /// The next step alone: what `run(1)` does, and quicker.
    #[inline(always)]
    pub fn run_one(&mut self) -> Outcome
        requires { steps self.old + 1 < 2 ^ 32 }
        ensures run { IsRun (signals self.old) (steps self.old) 1 (state self.old) result (steps self.new)
            (state self.new) (S.failures self.old.devices.sink) (S.failures self.new.devices.sink) }
        ensures schedule { entries self.new ≡ entries self.old }
    {
        match self.step() {
            Ok(()) => Outcome::Ran,
            Err(halt) => self.outcome(halt),
        }
    }

    /// The next step alone, with breakpoints: what `run_to(1, ..)` does, and quicker.
    #[inline(always)]
    pub fn run_one_to(&mut self, breaks: &Breakpoints) -> Halted
        requires { steps self.old + 1 < 2 ^ 32 }
        ensures run { IsRunTo (signals self.old) breaks.now (steps self.old) 1 (state self.old) result
            (steps self.new) (state self.new) (S.failures self.old.devices.sink)
            (S.failures self.new.devices.sink) }
        ensures schedule { entries self.new ≡ entries self.old }
    {
        match self.step() {
            Ok(()) => {
                if self.meets(breaks) {
                    return Halted::Met;
                }
                Halted::Ran
            }
            Err(Halt::Stop(stop)) => Halted::Left(self.steps(), stop),
            Err(Halt::Sink) => Halted::SinkFault(self.steps()),
        }
    }
}
