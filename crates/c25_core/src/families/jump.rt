//! Jumps.

ghost use Rattle.std.specs.Prelude.{◌≡◌, true};
ghost use Rattle.c25_meaning_processor.specs.Effect.{branch, jump_effect};
ghost use Rattle.c25_meaning_processor.specs.Operand.{with_change, with_next};
ghost use Rattle.c25_meaning_instructions.specs.Table.{NextInRange};

use crate::operand::{change_indirect, current};
use crate::stack::call;
use c25_meaning_instructions::insn::Change;
use c25_meaning_instructions::mnemonic::JumpName;
use c25_meaning_processor::registers::Registers;

/// Goes to the target where a condition holds.
fn branch(registers: &mut Registers, holds: bool, target: u16)
    ensures { registers.new ≡ branch holds target registers.old }
{
    if holds {
        registers.pc = target;
    }
}

/// Where OV is set, clears it and goes to the target.
fn branch_on_overflow(registers: &mut Registers, target: u16)
    ensures { registers.new ≡ jump_effect JumpName.Bv target true registers.old }
{
    if registers.acc.ov {
        registers.acc.ov = false;
        registers.pc = target;
    }
}

/// Clears OV where it is set, and otherwise goes to the target.
fn branch_without_overflow(registers: &mut Registers, target: u16)
    ensures { registers.new ≡ jump_effect JumpName.Bnv target true registers.old }
{
    if registers.acc.ov {
        registers.acc.ov = false;
    } else {
        registers.pc = target;
    }
}

/// Runs a jump without the change of its operand; PC already stands after the jump.
#[inline(always)]
fn jump(registers: &mut Registers, name: JumpName, target: u16, bio: bool)
    ensures { registers.new ≡ jump_effect name target bio registers.old }
{
    let acc = registers.acc.value;
    let negative = acc >= 0x8000_0000;
    match name {
        JumpName::Bc => branch(registers, registers.acc.c, target),
        JumpName::Bnc => branch(registers, !registers.acc.c, target),
        JumpName::Bv => branch_on_overflow(registers, target),
        JumpName::Bgz => branch(registers, !negative && acc != 0, target),
        JumpName::Blez => branch(registers, negative || acc == 0, target),
        JumpName::Blz => branch(registers, negative, target),
        JumpName::Bgez => branch(registers, !negative, target),
        JumpName::Bnz => branch(registers, acc != 0, target),
        JumpName::Bz => branch(registers, acc == 0, target),
        JumpName::Bnv => branch_without_overflow(registers, target),
        JumpName::Bbz => branch(registers, !registers.tc, target),
        JumpName::Bbnz => branch(registers, registers.tc, target),
        JumpName::Bioz => branch(registers, !bio, target),
        JumpName::Banz => branch(registers, current(registers) != 0, target),
        JumpName::Call => call(registers, target),
        JumpName::B => registers.pc = target,
    }
}

/// Runs a jump with the change of its operand; PC already stands after the jump.
#[inline(always)]
pub fn jump_and_change(
    registers: &mut Registers,
    name: JumpName,
    target: u16,
    change: Change,
    next: Option<u16>,
    bio: bool,
)
    requires { NextInRange next }
    ensures { registers.new ≡ with_next next registers.old.arp
        (with_change change registers.old.arp (jump_effect name target bio registers.old)) }
{
    let arp = registers.arp;
    jump(registers, name, target, bio);
    change_indirect(registers, change, next, arp);
}
