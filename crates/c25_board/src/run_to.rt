//! Runs that end at a breakpoint.

ghost use Rattle.std.specs.Prelude.{◌≡◌, ◌+◌, ◌<◌, ◌^◌};
ghost use Rattle.c25_meaning_processor.specs.Goes.{is_met};

use crate::board::Board;
use crate::breakpoints::Breakpoints;
use crate::ports::{Feed, Sink};
use c25_core::{Bus, Observer};
use c25_meaning_processor::registers::Registers;
use c25_meaning_processor::stop::Stop;

/// How a run that may end at a breakpoint ended. Steps are counted from 0 since the board was made.
#[derive(Clone, Copy, PartialEq, Debug)]
pub enum Halted {
    /// All steps were done, and no breakpoint was met.
    Ran,
    /// A breakpoint was met after the last step that was done, or what looks at the run ended it there.
    Met,
    /// The step of this number stopped.
    Left(u32, Stop),
    /// The sink refused a word in the step of this number.
    SinkFault(u32),
}

/// Ends a run where a breakpoint is met.
#[derive(Drop)]
struct AtBreakpoints<'a> {
    breaks: &'a Breakpoints,
}

impl Observer for AtBreakpoints<'_> {
    ghost tells = { λ o _ p. p ≡ o };

    ghost ends = { λ o s. is_met o.breaks.now s };

    #[inline(always)]
    fn see<B: Bus>(&mut self, _acting: Option<u16>, registers: &Registers, _bus: &B) -> bool {
        self.breaks.contains(registers.pc) && !registers.repeating && !registers.asleep
    }

    #[inline(always)]
    fn rests<B: Bus>(&self, registers: &Registers, _bus: &B) -> bool {
        registers.asleep
    }
}

impl<F: Feed + Drop, S: Sink + Drop> Board<F, S> {
    ghost use Rattle.c25_board.specs.Board.{entries, signals, state, steps};
    ghost use Rattle.c25_board.specs.RunTo.{IsRunTo};

    /// Whether a breakpoint is met: one is set at PC, no repeat is running, and the processor is awake. The
    /// breakpoint is tested first, since there is seldom one.
    #[inline(always)]
    pub(crate) fn meets(&self, breaks: &Breakpoints) -> bool
        ensures { result ≡ is_met breaks.now (state self.now) }
    {
        breaks.contains(self.pc()) && self.settled()
    }

    /// The next n steps, or those up to the one after which a breakpoint is met or that halts, each with the
    /// interrupt lines and the BIO level that the schedule has for it. A breakpoint is not looked for before
    /// the first step, so that a run that starts at one goes on.
    pub fn run_to(&mut self, n: u32, breaks: &Breakpoints) -> Halted
        requires { steps self.old + n < 2 ^ 32 }
        ensures run { IsRunTo (signals self.old) breaks.now (steps self.old) n (state self.old) result
            (steps self.new) (state self.new) (S.failures self.old.devices.sink)
            (S.failures self.new.devices.sink) }
        ensures schedule { entries self.new ≡ entries self.old }
    {
        let mut at = AtBreakpoints { breaks };
        self.run_observed(n, &mut at)
    }
}
