//! Runs that an observer looks at, step by step.

ghost use Rattle.std.specs.Prelude.{◌≡◌, ◌+◌, ◌<◌, ◌^◌, Err, OnOk, OnErr, IfOk, IfErr};
ghost use Rattle.c25_core.specs.Seen.{Sees};

use crate::board::Board;
use crate::ports::{Feed, Sink};
use crate::run_to::Halted;
use c25_core::{Halt, Observer};

impl<F: Feed + Drop, S: Sink + Drop> Board<F, S> {
    ghost use Rattle.c25_board.specs.Board.{entries, signals, state, steps};
    ghost use Rattle.c25_board.specs.Observed.{IsSeenTo, halted_at};
    ghost use Rattle.c25_board.specs.Run.{StepsOnce};

    /// One step, whatever acts in it, at which an observer looks. The answer is whether it ends the run.
    #[inline(never)]
    fn see_step<O: Observer>(&mut self, observer: &mut O) -> Result<bool, Halt>
        requires { steps self.old + 1 < 2 ^ 32 }
        ensures seen { IfOk result (λ ended. Sees O.tells O.ends (signals self.old) (steps self.old) 1 ended
            (state self.old) observer.old (state self.new) observer.new) }
        ensures count { OnOk result (steps self.new ≡ steps self.old + 1) }
        ensures failures { OnOk result (S.failures self.new.devices.sink ≡ S.failures self.old.devices.sink) }
        ensures halts { IfErr result (λ halt. StepsOnce (signals self.old) (steps self.old) (state self.old)
            (Err halt) (state self.new) (S.failures self.old.devices.sink) (S.failures self.new.devices.sink)) }
        ensures same_count { OnErr result (steps self.new ≡ steps self.old) }
        ensures same { OnErr result (observer.new ≡ observer.old) }
        ensures schedule { entries self.new ≡ entries self.old }
    {
        let acting = self.acting();
        match self.step() {
            Ok(()) => Ok(self.show(acting, observer)),
            Err(halt) => Err(halt),
        }
    }

    /// How a run ended whose next step halted.
    fn halted(&self, halt: Halt) -> Halted
        ensures { result ≡ halted_at halt (steps self.now) }
    {
        match halt {
            Halt::Stop(stop) => Halted::Left(self.steps(), stop),
            Halt::Sink => Halted::SinkFault(self.steps()),
        }
    }

    /// The next n steps, or those up to the one after which an observer ends the run or that halts, each with
    /// the interrupt lines and the BIO level that the schedule has for it. The observer sees each step that is
    /// done, but for sleep in which it need not; `Halted::Met` says that it ended the run.
    pub fn run_observed<O: Observer>(&mut self, n: u32, observer: &mut O) -> Halted
        requires { steps self.old + n < 2 ^ 32 }
        ensures run { IsSeenTo O.tells O.ends (signals self.old) (steps self.old) n (state self.old) observer.old
            result (steps self.new) (state self.new) observer.new (S.failures self.old.devices.sink)
            (S.failures self.new.devices.sink) }
        ensures schedule { entries self.new ≡ entries self.old }
    {
        let mut done = 0;
        while done < n {
            let seen = self.see_streak(n - done, observer);
            if seen.ended {
                return Halted::Met;
            }
            if let Some(halt) = seen.halt {
                return self.halted(halt);
            }
            done += seen.steps;
            if done == n {
                return Halted::Ran;
            }
            match self.see_step(observer) {
                Ok(ended) => {
                    if ended {
                        return Halted::Met;
                    }
                    done += 1;
                }
                Err(halt) => return self.halted(halt),
            }
        }
        Halted::Ran
    }
}
