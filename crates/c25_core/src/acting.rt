//! Which instruction acts in a step.

ghost use Rattle.std.specs.Prelude.{◌≡◌, Some, true};
ghost use Rattle.c25_core.specs.Acting.{acting};
ghost use Rattle.c25_meaning_processor.specs.State.{state_of};

use crate::bus::Bus;
use crate::fast::quick::is_undisturbed;
use crate::interrupt::begin;
use crate::processor::Core;
use bitflags::Flags;
use c25_meaning_processor::lines::Lines;
use c25_meaning_processor::registers::Registers;

/// Whether a step leaves the registers to the instruction at PC: it has no lines, the processor is awake, and
/// takes no interrupt.
#[inline(always)]
#[tactic(auto, using(crate::proofs::Acts::acts_so))]
fn acts_at_pc<B: Bus>(registers: &Registers, bus: &B, lines: Lines) -> bool
    ensures { result ≡ true
        → Some registers.now.pc ≡ acting lines (state_of registers.now (B.world bus.now)) }
{
    lines.is_empty() && is_undisturbed(registers, bus)
}

/// The address of the instruction that acts in a step, by a copy of the registers, with which the step begins.
#[inline(never)]
fn acting_begun<B: Bus>(registers: &Registers, bus: &B, lines: Lines) -> Option<u16>
    ensures { result ≡ acting lines (state_of registers.now (B.world bus.now)) }
{
    let mut begun = *registers;
    begin(&mut begun, bus, lines);
    if begun.asleep { None } else { Some(begun.pc) }
}

impl Core {
    /// The address of the instruction that acts in the next step, under the interrupt lines of that step: PC
    /// after the interrupt that the step itself takes, if it takes one. None where the processor sleeps in the
    /// step.
    #[inline(always)]
    pub fn acting<B: Bus>(&self, lines: Lines, bus: &B) -> Option<u16>
        ensures { result ≡ acting lines (state_of self.now (B.world bus.now)) }
    {
        let registers = &self.registers;
        if acts_at_pc(registers, bus, lines) {
            return Some(registers.pc);
        }
        acting_begun(registers, bus, lines)
    }
}
