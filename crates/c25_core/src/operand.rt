//! Operands in memory: their addresses, and the changes of the auxiliary registers (SPRU014,
//! "Memory Addressing Modes").

ghost use Rattle.std.specs.Prelude.{◌≡◌, ◌<◌, slice_index};
ghost use Rattle.c25_meaning_processor.specs.Operand.{address_of, changed, after_operand, with_change, with_next, without_next};
ghost use Rattle.c25_meaning_instructions.specs.Table.{AddrInRange, NextInRange};
ghost use Rattle.c25_core.specs.Groups.{UsesAr0};

use c25_bits::{reverse_add, reverse_sub};
use c25_meaning_instructions::insn::{Addr, Change};
use c25_meaning_processor::registers::{ArNumber, Registers};

/// The current auxiliary register.
#[inline(always)]
pub fn current(registers: &Registers) -> u16
    ensures { result ≡ slice_index registers.now.ar registers.now.arp }
{
    registers.ar[usize::from(registers.arp.number())]
}

/// The address of an operand.
#[inline(always)]
pub fn address_of(operand: &Addr, registers: &Registers) -> u16
    ensures { result ≡ address_of operand.now registers.now }
{
    match operand {
        Addr::Direct(low) => registers.dp.number() * 128 + *low % 128,
        Addr::Indirect(_, _) => current(registers),
    }
}

/// An auxiliary register after a change by AR0.
#[inline(never)]
fn changed_by_ar0(change: Change, ar: u16, ar0: u16) -> u16
    requires { UsesAr0 change }
    ensures { result ≡ changed change ar ar0 }
{
    match change {
        Change::ReverseSubtract => reverse_sub(ar, ar0),
        Change::Subtract => ar.wrapping_sub(ar0),
        Change::Add => ar.wrapping_add(ar0),
        _ => reverse_add(ar, ar0),
    }
}

/// An auxiliary register after its change. The usual changes are tested one by one; those by AR0 are a
/// function of their own.
#[inline(always)]
fn changed(change: Change, ar: u16, ar0: u16) -> u16
    ensures { result ≡ changed change ar ar0 }
{
    if let Change::Keep = change {
        return ar;
    }
    if let Change::Decrement = change {
        return ar.wrapping_sub(1);
    }
    if let Change::Increment = change {
        return ar.wrapping_add(1);
    }
    changed_by_ar0(change, ar, ar0)
}

/// Changes the auxiliary register of a number.
#[inline(always)]
pub fn change_ar(registers: &mut Registers, change: Change, arp: ArNumber)
    ensures { registers.new ≡ with_change change arp registers.old }
{
    let index = usize::from(arp.number());
    registers.ar[index] = changed(change, registers.ar[index], registers.ar[0]);
}

/// Loads ARP, and the old ARP into ARB, where a next register is given.
#[inline(always)]
fn load_next(registers: &mut Registers, next: Option<u16>, arp: ArNumber)
    requires { NextInRange next }
    ensures { registers.new ≡ with_next next arp registers.old }
{
    if let Some(next) = next {
        registers.arp = ArNumber::new(next);
        registers.arb = arp;
    }
}

/// Makes the change of an indirect operand, after an instruction that began with this ARP.
#[inline(always)]
pub fn change_indirect(registers: &mut Registers, change: Change, next: Option<u16>, arp: ArNumber)
    requires { NextInRange next }
    ensures { registers.new ≡ with_next next arp (with_change change arp registers.old) }
{
    change_ar(registers, change, arp);
    load_next(registers, next, arp);
}

/// Makes the change of an operand, after an instruction that began with this ARP.
#[inline(always)]
pub fn settle(registers: &mut Registers, operand: &Addr, arp: ArNumber)
    requires { AddrInRange operand.now }
    ensures { registers.new ≡ after_operand operand.now arp registers.old }
{
    match operand {
        Addr::Direct(_) => {}
        Addr::Indirect(change, next) => change_indirect(registers, *change, *next, arp),
    }
}

/// The operand without its next register.
pub fn without_next(operand: &Addr) -> Addr
    ensures { result ≡ without_next operand.now }
{
    match operand {
        Addr::Direct(low) => Addr::Direct(*low),
        Addr::Indirect(change, _) => Addr::Indirect(*change, None),
    }
}
