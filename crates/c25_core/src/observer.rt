//! What looks at a run, step by step.

ghost use Rattle.std.specs.Prelude.{◌≡◌, ℕ, Bool, Option, None, true, false};
ghost use Rattle.c25_meaning_processor.specs.State.{State, state_of};

use crate::bus::Bus;
use c25_meaning_processor::registers::Registers;

/// What looks at a run: it sees each step but those that would tell it nothing, and may end the run after one.
pub trait Observer {
    /// What looks at a run before and after a step in which the instruction at an address acted, or none did.
    ghost tells: { Self → Option ℕ → Self → Type 0 };

    /// Whether the run ends after a step that led to a state.
    ghost ends: { Self → State → Bool };

    /// Looks at a step that is done: the address of the instruction that acted in it, None where the
    /// processor slept, and processor and bus after it. The answer is whether the run ends.
    fn see<B: Bus>(&mut self, acting: Option<u16>, registers: &Registers, bus: &B) -> bool
        ensures told { tells self.old acting self.new }
        ensures ends { result ≡ ends self.old (state_of registers.now (B.world bus.now)) };

    /// Whether a step in which the processor sleeps, and which leaves processor and bus as they are here, need
    /// not be seen: it would tell the observer nothing, and not end the run.
    fn rests<B: Bus>(&self, registers: &Registers, bus: &B) -> bool
        ensures told { result ≡ true → tells self.now None self.now }
        ensures goes_on { result ≡ true → ends self.now (state_of registers.now (B.world bus.now)) ≡ false };
}

/// Looks at nothing, and ends no run.
#[derive(Clone, Copy)]
pub struct Unobserved;

impl Observer for Unobserved {
    ghost tells = { λ o _ p. p ≡ o };

    ghost ends = { λ _ _. false };

    #[inline(always)]
    fn see<B: Bus>(&mut self, _acting: Option<u16>, _registers: &Registers, _bus: &B) -> bool {
        false
    }

    #[inline(always)]
    fn rests<B: Bus>(&self, _registers: &Registers, _bus: &B) -> bool {
        true
    }
}
