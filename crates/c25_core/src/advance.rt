//! How PC moves from one instruction to the next.

ghost use Rattle.std.specs.Prelude.{◌≡◌, ◌<◌, ℕ, true, false};
ghost use Rattle.c25_meaning_processor.specs.Step.{advanced};

use c25_meaning_processor::registers::Registers;

/// Moves PC past an instruction of this size. In a repeat the repetition is counted, and PC stays until the
/// last one. The shadow of `EINT` ends.
pub fn advance(registers: &mut Registers, size: u16)
    ensures { registers.new ≡ advanced size registers.old }
{
    registers.shadowed = false;
    if registers.repeating && 0 < registers.rptc {
        registers.rptc -= 1;
        registers.repeated = registers.repeated.wrapping_add(1);
        return;
    }
    registers.pc = registers.pc.wrapping_add(size);
    registers.repeating = false;
    registers.repeated = 0;
}

/// Moves PC past an instruction of this size, where the caller knows whether a repeat is running: outside a
/// repeat the fields of the repeat are not read.
#[inline(always)]
#[tactic(auto, using(crate::proofs::Alone::alone))]
pub fn move_on(registers: &mut Registers, repeating: bool, size: u16)
    requires { registers.old.repeating ≡ repeating }
    ensures { registers.new ≡ advanced size registers.old }
{
    if repeating {
        advance(registers, size);
        return;
    }
    registers.shadowed = false;
    registers.pc = registers.pc.wrapping_add(size);
    registers.repeated = 0;
}

/// Moves PC past an instruction of this size, outside a repeat and outside the shadow of `EINT`: nothing but
/// PC changes.
#[inline(always)]
#[tactic(auto, using(crate::proofs::Alone::moved))]
pub fn go_on(registers: &mut Registers, size: u16)
    requires repeating { registers.old.repeating ≡ false }
    requires shadowed { registers.old.shadowed ≡ false }
    requires repeated { registers.old.repeated ≡ 0 }
    ensures { registers.new ≡ advanced size registers.old }
{
    registers.pc = registers.pc.wrapping_add(size);
}

/// Counts a repetition that is not the last one of its repeat. PC stays.
#[inline(always)]
#[tactic(auto, using(crate::proofs::Alone::counted))]
pub fn count(registers: &mut Registers)
    requires repeating { registers.old.repeating ≡ true }
    requires shadowed { registers.old.shadowed ≡ false }
    requires more { 0 < registers.old.rptc }
    ensures { (size : ℕ) → registers.new ≡ advanced size registers.old }
{
    registers.rptc -= 1;
    registers.repeated = registers.repeated.wrapping_add(1);
}

/// Ends a repeat with its last repetition, and moves PC past its instruction, which has this size.
#[inline(always)]
#[tactic(auto, using(crate::proofs::Alone::ended))]
pub fn end_repeat(registers: &mut Registers, size: u16)
    requires shadowed { registers.old.shadowed ≡ false }
    requires last { registers.old.rptc ≡ 0 }
    ensures { registers.new ≡ advanced size registers.old }
{
    registers.pc = registers.pc.wrapping_add(size);
    registers.repeating = false;
    registers.repeated = 0;
}
