//! Interrupts (SPRU014, "Interrupts").

ghost use Rattle.std.specs.Prelude.{◌≡◌, ◌&&◌};
ghost use Rattle.c25_meaning_processor.specs.Step.{begun, has, interrupted, latched, taken_under, vectored};
ghost use Rattle.c25_meaning_processor.specs.State.{state_of};

use crate::bus::Bus;
use crate::stack::push;
use bitflags::Flags;
use c25_meaning_processor::lines::Lines;
use c25_meaning_processor::registers::Registers;

/// Latches the lines of a step.
fn latch(registers: &mut Registers, lines: Lines)
    ensures { registers.new ≡ latched lines registers.old }
{
    registers.latched.insert(lines);
}

/// Takes the interrupt of a line.
fn enter(registers: &mut Registers, line: Lines, vector: u16)
    ensures { registers.new ≡ vectored line.0 vector registers.old }
{
    push(registers, registers.pc);
    registers.latched.remove(line);
    registers.pc = vector;
    registers.intm = true;
    registers.asleep = false;
}

/// Whether a line is latched and its bit in the mask is set.
pub fn asks(registers: &Registers, mask: u16, line: Lines) -> bool
    ensures { result ≡ (has registers.now.latched.0 line.0 && has mask line.0) }
{
    registers.latched.contains(line) && mask & u16::from(line.bits()) == u16::from(line.bits())
}

/// Takes the interrupt of the lowest line that is latched and has its bit in the mask set, if there is one.
#[tactic(auto, unfolding(c25_meaning_processor::specs::Step::taken_under))]
fn take_under(registers: &mut Registers, mask: u16)
    ensures { registers.new ≡ taken_under mask registers.old }
{
    if asks(registers, mask, Lines::INT0) {
        enter(registers, Lines::INT0, 2);
    } else if asks(registers, mask, Lines::INT1) {
        enter(registers, Lines::INT1, 4);
    } else if asks(registers, mask, Lines::INT2) {
        enter(registers, Lines::INT2, 6);
    }
}

/// Takes the interrupt of a line that is latched and has its bit in the mask set, if there is one, unless a
/// repeat is running, `EINT` was the last instruction, or INTM is 1.
fn interrupt(registers: &mut Registers, mask: u16)
    ensures { registers.new ≡ interrupted mask registers.old }
{
    if registers.repeating || registers.shadowed || registers.intm {
        return;
    }
    take_under(registers, mask)
}

/// Latches the lines of a step and takes an interrupt where one may be taken. The mask IMR is data
/// word 4.
pub fn begin<B: Bus>(registers: &mut Registers, bus: &B, lines: Lines)
    ensures { registers.new ≡ begun lines (state_of registers.old (B.world bus.now)) }
{
    latch(registers, lines);
    let mask = bus.data(4);
    interrupt(registers, mask)
}
